ghost use Rattle.text_laws.specs.Parsers.{behind};
ghost use Rattle.text_laws.specs.MissionReading.{limit_at, range_at, use_at, kind_at, uses_at, next_at};
ghost use Rattle.ddl_read.specs.Answers.{Gives};

use crate::reader::Reader;
use crate::unread::Unread;
use hs_base::{LAST, List, Range};
use hs_texts::{AstKind, Use};
use std::alloc::Global;

impl<'a> Reader<'a> {
    /// Reads a limit of a range.
    #[tactic(auto, unfolding(text_laws::specs::MissionReading::limit_at))]
    pub fn limit(&mut self) -> Result<i64, Unread>
        ensures { Gives result self.new (limit_at self.old) }
    {
        if self.is_at(b"inf") {
            self.keyword(b"inf")?;
            return Ok(LAST);
        }
        self.number()
    }

    /// Reads a range.
    #[tactic(auto, unfolding(text_laws::specs::MissionReading::range_at))]
    pub fn range(&mut self) -> Result<Range, Unread>
        ensures { Gives result self.new (range_at self.old) }
    {
        self.symbol(b'[')?;
        let low = self.limit()?;
        self.symbol(b',')?;
        let high = self.limit()?;
        self.symbol(b']')?;
        Ok(Range { low, high })
    }

    /// Reads a place where a value is named.
    #[tactic(auto, unfolding(text_laws::specs::MissionReading::use_at))]
    pub fn value_use(&mut self, alloc: Global, version: u32) -> Result<Use, Unread>
        ensures { Gives result self.new (use_at version self.old) }
    {
        let name = self.name(alloc, version)?;
        Ok(Use {
            name,
            args: List::new(alloc),
        })
    }

    /// Reads a value named with its variable.
    #[tactic(auto, unfolding(text_laws::specs::MissionReading::kind_at))]
    pub fn kind(&mut self, alloc: Global, version: u32) -> Result<AstKind, Unread>
        ensures { Gives result self.new (kind_at version self.old) }
    {
        let sv = self.name(alloc, version)?;
        self.symbol(b'.')?;
        let value = self.value_use(alloc, version)?;
        Ok(AstKind { sv, value })
    }

    /// Reads the values behind `then`.
    #[tactic(auto, unfolding(text_laws::specs::MissionReading::uses_at))]
    pub fn uses(&mut self, alloc: Global, version: u32) -> Result<List<Use>, Unread>
        ensures { Gives result self.new (uses_at version self.old) }
    {
        let mut uses = List::new(alloc);
        uses.push(self.value_use(alloc, version)?)?;
        'uses: while self.is_at_symbol(b',') {
            uses.push(self.further_use(alloc, version)?)?;
        }
        Ok(uses)
    }

    /// Reads the values that may follow a value, where there are any.
    #[tactic(auto, unfolding(text_laws::specs::MissionReading::next_at))]
    pub fn next_values(&mut self, alloc: Global, version: u32) -> Result<List<Use>, Unread>
        ensures { Gives result self.new (next_at version self.old) }
    {
        if self.is_at(b"then") {
            self.keyword(b"then")?;
            return self.uses(alloc, version);
        }
        Ok(List::new(alloc))
    }

    /// Reads a further value behind a comma.
    fn further_use(&mut self, alloc: Global, version: u32) -> Result<Use, Unread>
        ensures { Gives result self.new (behind "," (use_at version) self.old) }
    {
        self.symbol(b',')?;
        self.value_use(alloc, version)
    }
}
