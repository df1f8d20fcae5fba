ghost use Rattle.std.specs.Prelude.{◌≡◌, [], ◌∷◌, IfOk};
ghost use Rattle.text_laws.specs.Parsers.{several};
ghost use Rattle.text_laws.specs.MissionReading.{plain_at, device_at, value_at, some_use_at, begin_at, var_at};
ghost use Rattle.ddl_read.specs.Answers.{Gives};

use crate::reader::Reader;
use crate::unread::Unread;
use hs_base::{List, Memory, Name, Range};
use hs_texts::{AstValue, AstVar, Use};
use std::alloc::Global;

/// The list of one range.
fn one_range(alloc: Global, lasts: Range) -> Result<List<Range>, Memory>
    ensures { IfOk result (λ ranges. ranges ≡ lasts ∷ []) }
{
    let mut ranges = List::new(alloc);
    ranges.push(lasts)?;
    Ok(ranges)
}

impl<'a> Reader<'a> {
    /// Reads the rest of a value that no device ends.
    #[tactic(auto, unfolding(text_laws::specs::MissionReading::plain_at))]
    fn plain(
        &mut self,
        alloc: Global,
        version: u32,
        name: Name,
        lasts: Range,
    ) -> Result<AstValue, Unread>
        ensures { Gives result self.new (plain_at version name lasts self.old) }
    {
        let next = self.next_values(alloc, version)?;
        Ok(AstValue {
            name,
            params: List::new(alloc),
            lasts: one_range(alloc, lasts)?,
            by_device: false,
            next,
            script: List::new(alloc),
            answers: List::new(alloc),
        })
    }

    /// Reads the rest of a value that a device ends.
    #[tactic(auto, unfolding(text_laws::specs::MissionReading::device_at))]
    fn device(
        &mut self,
        alloc: Global,
        version: u32,
        name: Name,
        lasts: Range,
    ) -> Result<AstValue, Unread>
        ensures { Gives result self.new (device_at version name lasts self.old) }
    {
        self.keyword(b"by")?;
        self.keyword(b"device")?;
        let next = self.next_values(alloc, version)?;
        let script = self.script(alloc, version)?;
        let answers = self.all_answers(alloc, version)?;
        Ok(AstValue {
            name,
            params: List::new(alloc),
            lasts: one_range(alloc, lasts)?,
            by_device: true,
            next,
            script,
            answers,
        })
    }

    /// Reads a `value` clause.
    #[tactic(auto, unfolding(text_laws::specs::MissionReading::value_at))]
    fn value(&mut self, alloc: Global, version: u32) -> Result<AstValue, Unread>
        ensures { Gives result self.new (value_at version self.old) }
    {
        self.keyword(b"value")?;
        let name = self.name(alloc, version)?;
        let lasts = self.range()?;
        if self.is_at(b"by") {
            self.device(alloc, version, name, lasts)
        } else {
            self.plain(alloc, version, name, lasts)
        }
    }

    /// Reads the values of a variable.
    fn values(&mut self, alloc: Global, version: u32) -> Result<List<AstValue>, Unread>
        ensures { Gives result self.new (several "value" (value_at version) self.old) }
    {
        let mut values = List::new(alloc);
        values.push(self.value(alloc, version)?)?;
        'values: while self.is_at(b"value") {
            values.push(self.value(alloc, version)?)?;
        }
        Ok(values)
    }

    /// Reads the value that a variable begins with.
    #[tactic(auto, unfolding(text_laws::specs::MissionReading::some_use_at))]
    fn begin_value(&mut self, alloc: Global, version: u32) -> Result<Option<Use>, Unread>
        ensures { Gives result self.new (some_use_at version self.old) }
    {
        let value = self.value_use(alloc, version)?;
        Ok(Some(value))
    }

    /// Reads a `begin` clause, where there is one.
    #[tactic(auto, unfolding(text_laws::specs::MissionReading::begin_at))]
    fn begin(&mut self, alloc: Global, version: u32) -> Result<Option<Use>, Unread>
        ensures { Gives result self.new (begin_at version self.old) }
    {
        if self.is_at(b"begin") {
            self.keyword(b"begin")?;
            return self.begin_value(alloc, version);
        }
        Ok(None)
    }

    /// Reads a `var` clause.
    #[tactic(auto, unfolding(text_laws::specs::MissionReading::var_at))]
    pub fn var(&mut self, alloc: Global, version: u32) -> Result<AstVar, Unread>
        ensures { Gives result self.new (var_at version self.old) }
    {
        self.keyword(b"var")?;
        let name = self.name(alloc, version)?;
        let values = self.values(alloc, version)?;
        let begin = self.begin(alloc, version)?;
        Ok(AstVar {
            name,
            values,
            begin,
        })
    }
}
