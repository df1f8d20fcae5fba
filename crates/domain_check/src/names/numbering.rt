ghost use Rattle.std.specs.Prelude.{◌≡◌, [], ◌∷◌, ◌++◌, cond, not, IfOk};
ghost use Rattle.hs_texts.specs.MissionRefusals.{is_among};
ghost use Rattle.domain_check.specs.Numbering.{number_in};
ghost use Rattle.domain_check.specs.Tables.{names_in};

use super::Names;
use hs_base::{List, Memory, Name};
use indexmap::IndexSet;
use std::alloc::Global;

impl<'a> Names<'a> {
    /// No names; it takes no memory.
    pub fn new(alloc: Global) -> Names<'a>
        ensures { names_in result ≡ [] }
    {
        Names {
            set: IndexSet::new(alloc),
        }
    }

    /// Adds a name and tells whether it is new. There are less than 2^32; a further one is refused
    /// as want of memory.
    pub fn add(&mut self, name: &'a Name) -> Result<bool, Memory>
        ensures added { IfOk result (λ added. added ≡ not (is_among (names_in self.old) name.now)) }
        ensures names { IfOk result (λ added. names_in self.new
            ≡ cond (is_among (names_in self.old) name.now) (names_in self.old) (names_in self.old ++ name.now ∷ [])) }
    {
        if self.set.len() >= u32::MAX as usize {
            return Err(Memory);
        }
        let added = self.set.insert(name.as_bytes())?;
        Ok(added)
    }

    /// Whether a name is one of these.
    pub fn has(&self, name: &Name) -> bool
        ensures { result ≡ is_among (names_in self.now) name.now }
    {
        self.set.contains(name.as_bytes())
    }

    /// The number of a name, or of the next one that would come.
    pub fn number(&self, name: &Name) -> u32
        ensures { result ≡ number_in (names_in self.now) name.now }
    {
        match self.set.get_index_of(name.as_bytes()) {
            Some(number) => number as u32,
            None => self.set.len() as u32,
        }
    }

    /// Copies of the names, in their order.
    pub fn copies(&self, alloc: Global) -> Result<List<Name>, Memory>
        ensures { IfOk result (λ names. names ≡ names_in self.now) }
    {
        let mut names = List::new(alloc);
        for name in self.set.as_slice() {
            names.push(Name::from_bytes(alloc, *name)?)?;
        }
        Ok(names)
    }
}
