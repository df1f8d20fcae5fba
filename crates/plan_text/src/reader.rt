ghost use Rattle.std.specs.Prelude.{◌≡◌, pos, length, codes, IfOk};
ghost use Rattle.hs_texts.specs.Languages.{word_says, symbol_says};
ghost use Rattle.text_laws.specs.Parsers.{next, one, is_word, is_sign, many, number};
ghost use Rattle.text_laws.specs.MissionReading.{name_at};
ghost use Rattle.plan_text.specs.PlanReading.{count_at, exactly_at, one_more_at, token_at, horizon_point_at, end_point_at, point_at, new_token_at, support_at};
ghost use Rattle.plan_text.specs.Answers.{Gives, Keeps};

use crate::stop::Stop;
use ddl_read::Reader;
use hs_base::{List, Memory, Name};
use hs_texts::{WrittenKind, WrittenPoint, WrittenSupport, WrittenToken};
use std::alloc::Global;
use std::marker::Model;

/// What is left of the pieces of a text about plans.
#[derive(Drop)]
pub struct PlanReader<'a> {
    pieces: Reader<'a>,
}

impl<'a> Model for PlanReader<'a> {
    ghost use Rattle.std.specs.Prelude.{List};
    ghost use Rattle.hs_texts.specs.Pieces.{Piece as Spelling};

    ghost Value = { List Spelling };

    ghost view = { λ reader. reader.pieces };
}

/// A number of a text as a count. None of them is too great for it, since a text's numbers end
/// far below 2^32.
fn count_of(number: i64) -> Result<u32, Memory>
    ensures { IfOk result (λ count. pos count ≡ number) }
{
    match u32::try_from(number) {
        Ok(count) => Ok(count),
        Err(_) => Err(Memory),
    }
}

impl<'a> PlanReader<'a> {
    /// Begins to read these pieces.
    pub fn new(pieces: Reader<'a>) -> PlanReader<'a>
        ensures { result ≡ pieces.entry }
    {
        PlanReader { pieces }
    }

    /// The number of pieces that are left.
    pub fn left(&self) -> usize
        ensures { result ≡ length self.now }
    {
        self.pieces.left()
    }

    /// Whether the next piece is this word.
    pub fn is_at(&self, word: &[u8]) -> bool
        ensures { result ≡ is_word word.now (next self.now) }
    {
        self.pieces.is_at(word)
    }

    /// Reads this word.
    pub fn keyword(&mut self, word: &[u8]) -> Result<(), Stop>
        ensures { Gives result self.new (one (word_says word.now) self.old) }
    {
        Ok(self.pieces.keyword(word)?)
    }

    /// Whether the next piece is this symbol.
    pub fn is_at_symbol(&self, symbol: u8) -> bool
        ensures { result ≡ is_sign symbol (next self.now) }
    {
        self.pieces.is_at_symbol(symbol)
    }

    /// Reads this symbol.
    pub fn symbol(&mut self, symbol: u8) -> Result<(), Stop>
        ensures { Gives result self.new (one (symbol_says symbol) self.old) }
    {
        Ok(self.pieces.symbol(symbol)?)
    }

    /// Reads a number.
    pub fn number(&mut self) -> Result<i64, Stop>
        ensures { Gives result self.new (number self.old) }
    {
        Ok(self.pieces.number()?)
    }

    /// Reads a number that counts.
    pub fn count(&mut self) -> Result<u32, Stop>
        ensures { Gives result self.new (count_at self.old) }
    {
        let number = self.number()?;
        Ok(count_of(number)?)
    }

    /// Reads this number.
    #[tactic(auto, unfolding(crate::specs::PlanReading::exactly_at))]
    pub fn exactly(&mut self, wanted: usize) -> Result<(), Stop>
        ensures { Keeps result self.new (exactly_at wanted self.old) }
    {
        if self.count()? as usize != wanted {
            return Err(Stop::Pieces(1));
        }
        Ok(())
    }

    /// Reads the number that follows another one, and answers that.
    #[tactic(auto, unfolding(crate::specs::PlanReading::one_more_at))]
    pub fn one_more(&mut self) -> Result<u32, Stop>
        ensures { Keeps result self.new (one_more_at self.old) }
    {
        let number = self.count()?;
        if number == 0 {
            return Err(Stop::Pieces(1));
        }
        Ok(number - 1)
    }

    /// Reads a name.
    pub fn name(&mut self, alloc: Global) -> Result<Name, Stop>
        ensures { Gives result self.new (name_at 1 self.old) }
    {
        Ok(self.pieces.name(alloc, 1)?)
    }

    /// Reads a token by its variable and its place.
    #[tactic(auto, unfolding(crate::specs::PlanReading::token_at))]
    pub fn token(&mut self, alloc: Global) -> Result<WrittenToken, Stop>
        ensures { Gives result self.new (token_at self.old) }
    {
        let sv = self.name(alloc)?;
        let place = self.count()?;
        Ok(WrittenToken { sv, place })
    }

    /// Reads a point.
    #[tactic(auto, unfolding(crate::specs::PlanReading::point_at, crate::specs::PlanReading::horizon_point_at, crate::specs::PlanReading::end_point_at))]
    pub fn point(&mut self, alloc: Global) -> Result<WrittenPoint, Stop>
        ensures { Gives result self.new (point_at self.old) }
    {
        if self.is_at(b"Z") {
            self.keyword(b"Z")?;
            return Ok(WrittenPoint::Origin);
        }
        if self.is_at(b"H") {
            self.keyword(b"H")?;
            return Ok(WrittenPoint::Horizon(self.count()?));
        }
        Ok(WrittenPoint::End(self.token(alloc)?))
    }

    /// Reads a `token` clause.
    #[tactic(auto, unfolding(crate::specs::PlanReading::new_token_at))]
    fn new_token(&mut self, alloc: Global) -> Result<WrittenKind, Stop>
        ensures { Gives result self.new (new_token_at self.old) }
    {
        self.keyword(b"token")?;
        let sv = self.name(alloc)?;
        let value = self.name(alloc)?;
        Ok(WrittenKind { sv, value })
    }

    /// Reads the new tokens of an extension.
    pub fn new_tokens(&mut self, alloc: Global) -> Result<List<WrittenKind>, Stop>
        ensures { Gives result self.new (many (is_word (codes "token")) new_token_at self.old) }
    {
        let mut tokens = List::new(alloc);
        'tokens: while self.is_at(b"token") {
            tokens.push(self.new_token(alloc)?)?;
        }
        Ok(tokens)
    }

    /// Reads a `support` clause.
    #[tactic(auto, unfolding(crate::specs::PlanReading::support_at))]
    fn support(&mut self, alloc: Global) -> Result<WrittenSupport, Stop>
        ensures { Gives result self.new (support_at self.old) }
    {
        self.keyword(b"support")?;
        let token = self.token(alloc)?;
        let need = self.count()?;
        let by = self.token(alloc)?;
        Ok(WrittenSupport { token, need, by })
    }

    /// Reads the supports of an extension.
    pub fn supports(&mut self, alloc: Global) -> Result<List<WrittenSupport>, Stop>
        ensures { Gives result self.new (many (is_word (codes "support")) support_at self.old) }
    {
        let mut supports = List::new(alloc);
        'supports: while self.is_at(b"support") {
            supports.push(self.support(alloc)?)?;
        }
        Ok(supports)
    }
}
