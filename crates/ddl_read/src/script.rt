ghost use Rattle.std.specs.Prelude.{◌≡◌, codes, IfOk};
ghost use Rattle.std.specs.List.{flat_map};
ghost use Rattle.hs_texts.specs.MissionText.{until_done as until_done_spec};
ghost use Rattle.text_laws.specs.Parsers.{apart, behind, is_word, many};
ghost use Rattle.text_laws.specs.MissionReading.{do_at, until_at, part_at, parts_at, script_at, said_at, answers_at};
ghost use Rattle.ddl_read.specs.Answers.{Gives};

use crate::reader::Reader;
use crate::unread::Unread;
use hs_base::{List, Memory, Name};
use hs_texts::{AstSaid, AstStep};
use std::alloc::Global;

/// The steps of all parts, one after another.
fn joined(alloc: Global, parts: List<List<AstStep>>) -> Result<List<AstStep>, Memory>
    ensures { IfOk result (λ steps. steps ≡ flat_map (λ part. part) parts) }
{
    let mut steps = Vec::new(alloc);
    'parts: for part in parts.into_vec() {
        let mut part = part.into_vec();
        steps.append(&mut part)?;
    }
    Ok(List::from_vec(steps))
}

/// The script of a value whose text has none.
fn until_done(alloc: Global) -> Result<List<AstStep>, Memory>
    ensures { IfOk result (λ steps. steps ≡ until_done_spec) }
{
    let mut steps = List::new(alloc);
    steps.push(AstStep::Until {
        word: Name::from_bytes(alloc, b"done")?,
    })?;
    Ok(steps)
}

impl<'a> Reader<'a> {
    /// Reads an order of a script.
    #[tactic(auto, unfolding(text_laws::specs::MissionReading::do_at))]
    fn order(&mut self, alloc: Global, version: u32) -> Result<AstStep, Unread>
        ensures { Gives result self.new (do_at version self.old) }
    {
        self.keyword(b"do")?;
        let word = self.name(alloc, version)?;
        let amount = self.number()?;
        self.symbol(b';')?;
        Ok(AstStep::Do { word, amount })
    }

    /// Reads what a script waits for.
    #[tactic(auto, unfolding(text_laws::specs::MissionReading::until_at))]
    fn until(&mut self, alloc: Global, version: u32) -> Result<AstStep, Unread>
        ensures { Gives result self.new (until_at version self.old) }
    {
        self.keyword(b"until")?;
        let word = self.name(alloc, version)?;
        Ok(AstStep::Until { word })
    }

    /// Reads the orders of a part.
    fn orders(&mut self, alloc: Global, version: u32) -> Result<List<AstStep>, Unread>
        ensures { Gives result self.new (many (is_word (codes "do")) (do_at version) self.old) }
    {
        let mut orders = List::new(alloc);
        'orders: while self.is_at(b"do") {
            orders.push(self.order(alloc, version)?)?;
        }
        Ok(orders)
    }

    /// Reads a part of a script: orders, and what is waited for.
    #[tactic(auto, unfolding(text_laws::specs::MissionReading::part_at))]
    fn part(&mut self, alloc: Global, version: u32) -> Result<List<AstStep>, Unread>
        ensures { Gives result self.new (part_at version self.old) }
    {
        let mut steps = self.orders(alloc, version)?;
        steps.push(self.until(alloc, version)?)?;
        Ok(steps)
    }

    /// Reads a further part behind a semicolon.
    fn further_part(&mut self, alloc: Global, version: u32) -> Result<List<AstStep>, Unread>
        ensures { Gives result self.new (behind ";" (part_at version) self.old) }
    {
        self.symbol(b';')?;
        self.part(alloc, version)
    }

    /// Reads the parts of a script.
    fn parts(&mut self, alloc: Global, version: u32) -> Result<List<List<AstStep>>, Unread>
        ensures { Gives result self.new (apart ";" (part_at version) self.old) }
    {
        let mut parts = List::new(alloc);
        parts.push(self.part(alloc, version)?)?;
        'parts: while self.is_at_symbol(b';') {
            parts.push(self.further_part(alloc, version)?)?;
        }
        Ok(parts)
    }

    /// Reads the steps behind `script`.
    #[tactic(auto, unfolding(text_laws::specs::MissionReading::parts_at))]
    fn steps(&mut self, alloc: Global, version: u32) -> Result<List<AstStep>, Unread>
        ensures { Gives result self.new (parts_at version self.old) }
    {
        let parts = self.parts(alloc, version)?;
        Ok(joined(alloc, parts)?)
    }

    /// Reads a script; a missing one awaits `done`.
    #[tactic(auto, unfolding(text_laws::specs::MissionReading::script_at))]
    pub fn script(&mut self, alloc: Global, version: u32) -> Result<List<AstStep>, Unread>
        ensures { Gives result self.new (script_at version self.old) }
    {
        if self.is_at(b"script") {
            self.keyword(b"script")?;
            return self.steps(alloc, version);
        }
        Ok(until_done(alloc)?)
    }

    /// Reads a word that a device says, with its delay.
    #[tactic(auto, unfolding(text_laws::specs::MissionReading::said_at))]
    fn said(&mut self, alloc: Global, version: u32) -> Result<AstSaid, Unread>
        ensures { Gives result self.new (said_at version self.old) }
    {
        let delay = self.number()?;
        let word = self.name(alloc, version)?;
        Ok(AstSaid { delay, word })
    }

    /// Reads a further word behind a comma.
    fn further_said(&mut self, alloc: Global, version: u32) -> Result<AstSaid, Unread>
        ensures { Gives result self.new (behind "," (said_at version) self.old) }
    {
        self.symbol(b',')?;
        self.said(alloc, version)
    }

    /// Reads the words of an `answers` clause.
    fn words_said(&mut self, alloc: Global, version: u32) -> Result<List<AstSaid>, Unread>
        ensures { Gives result self.new (apart "," (said_at version) self.old) }
    {
        let mut words = List::new(alloc);
        words.push(self.said(alloc, version)?)?;
        'words: while self.is_at_symbol(b',') {
            words.push(self.further_said(alloc, version)?)?;
        }
        Ok(words)
    }

    /// Reads an `answers` clause.
    #[tactic(auto, unfolding(text_laws::specs::MissionReading::answers_at))]
    fn answers(&mut self, alloc: Global, version: u32) -> Result<List<AstSaid>, Unread>
        ensures { Gives result self.new (answers_at version self.old) }
    {
        self.keyword(b"answers")?;
        self.words_said(alloc, version)
    }

    /// Reads all `answers` clauses of a value.
    pub fn all_answers(
        &mut self,
        alloc: Global,
        version: u32,
    ) -> Result<List<List<AstSaid>>, Unread>
        ensures { Gives result self.new (many (is_word (codes "answers")) (answers_at version) self.old) }
    {
        let mut clauses = List::new(alloc);
        'clauses: while self.is_at(b"answers") {
            clauses.push(self.answers(alloc, version)?)?;
        }
        Ok(clauses)
    }
}
