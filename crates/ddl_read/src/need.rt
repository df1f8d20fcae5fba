ghost use Rattle.std.specs.Prelude.{◌≡◌, ◌∷◌, codes, IfOk};
ghost use Rattle.text_laws.specs.Parsers.{after, is_word, many};
ghost use Rattle.text_laws.specs.MissionReading.{relation_at, choice_at, further_at, choices_at, need_at};
ghost use Rattle.ddl_read.specs.Answers.{Gives};

use crate::reader::Reader;
use crate::unread::Unread;
use hs_base::{List, Memory, Relation};
use hs_texts::{AstChoice, AstNeed};
use std::alloc::Global;

/// A choice, and further ones behind it.
fn with_first(
    alloc: Global,
    first: AstChoice,
    others: List<AstChoice>,
) -> Result<List<AstChoice>, Memory>
    ensures { IfOk result (λ choices. choices ≡ first ∷ others) }
{
    let mut choices = Vec::new(alloc);
    choices.push(first)?;
    choices.append(&mut others.into_vec())?;
    Ok(List::from_vec(choices))
}

impl<'a> Reader<'a> {
    /// Reads a relation with its ranges.
    #[tactic(auto, unfolding(text_laws::specs::MissionReading::relation_at, text_laws::specs::MissionReading::one_range, text_laws::specs::MissionReading::two_ranges))]
    fn relation(&mut self) -> Result<Relation, Unread>
        ensures { Gives result self.new (relation_at self.old) }
    {
        if self.is_at(b"before") {
            self.keyword(b"before")?;
            return Ok(Relation::Before(self.range()?));
        }
        if self.is_at(b"after") {
            self.keyword(b"after")?;
            return Ok(Relation::After(self.range()?));
        }
        if self.is_at(b"meets") {
            self.keyword(b"meets")?;
            return Ok(Relation::Meets);
        }
        if self.is_at(b"met_by") {
            self.keyword(b"met_by")?;
            return Ok(Relation::MetBy);
        }
        if self.is_at(b"starts") {
            self.keyword(b"starts")?;
            return Ok(Relation::Starts(self.range()?));
        }
        if self.is_at(b"ends") {
            self.keyword(b"ends")?;
            return Ok(Relation::Ends(self.range()?));
        }
        if self.is_at(b"equals") {
            self.keyword(b"equals")?;
            return Ok(Relation::Equals);
        }
        if self.is_at(b"contains") {
            self.keyword(b"contains")?;
            let start = self.range()?;
            let stop = self.range()?;
            return Ok(Relation::Contains(start, stop));
        }
        self.keyword(b"contained_by")?;
        let start = self.range()?;
        let stop = self.range()?;
        Ok(Relation::ContainedBy(start, stop))
    }

    /// Reads a choice of a need.
    #[tactic(auto, unfolding(text_laws::specs::MissionReading::choice_at))]
    fn choice(&mut self, alloc: Global, version: u32) -> Result<AstChoice, Unread>
        ensures { Gives result self.new (choice_at version self.old) }
    {
        let relation = self.relation()?;
        let by = self.kind(alloc, version)?;
        Ok(AstChoice { relation, by })
    }

    /// Reads a further choice behind `or`.
    fn further_choice(&mut self, alloc: Global, version: u32) -> Result<AstChoice, Unread>
        ensures { Gives result self.new (after "or" (choice_at version) self.old) }
    {
        self.keyword(b"or")?;
        self.choice(alloc, version)
    }

    /// Reads further choices.
    fn more_choices(&mut self, alloc: Global, version: u32) -> Result<List<AstChoice>, Unread>
        ensures { Gives result self.new (many (is_word (codes "or")) (after "or" (choice_at version)) self.old) }
    {
        let mut choices = List::new(alloc);
        'choices: while self.is_at(b"or") {
            choices.push(self.further_choice(alloc, version)?)?;
        }
        Ok(choices)
    }

    /// Reads further choices, which there are none of in version 1.
    #[tactic(auto, unfolding(text_laws::specs::MissionReading::further_at))]
    fn further_choices(&mut self, alloc: Global, version: u32) -> Result<List<AstChoice>, Unread>
        ensures { Gives result self.new (further_at version self.old) }
    {
        if version == 1 {
            return Ok(List::new(alloc));
        }
        self.more_choices(alloc, version)
    }

    /// Reads the choices of a need.
    #[tactic(auto, unfolding(text_laws::specs::MissionReading::choices_at))]
    fn choices(&mut self, alloc: Global, version: u32) -> Result<List<AstChoice>, Unread>
        ensures { Gives result self.new (choices_at version self.old) }
    {
        let first = self.choice(alloc, version)?;
        let others = self.further_choices(alloc, version)?;
        Ok(with_first(alloc, first, others)?)
    }

    /// Reads a `need` clause.
    #[tactic(auto, unfolding(text_laws::specs::MissionReading::need_at))]
    pub fn need(&mut self, alloc: Global, version: u32) -> Result<AstNeed, Unread>
        ensures { Gives result self.new (need_at version self.old) }
    {
        self.keyword(b"need")?;
        let of = self.kind(alloc, version)?;
        let either = self.choices(alloc, version)?;
        Ok(AstNeed { of, either })
    }
}
