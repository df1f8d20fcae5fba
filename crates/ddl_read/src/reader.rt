ghost use Rattle.std.specs.Prelude.{◌≡◌, ◌+◌, length};
ghost use Rattle.hs_texts.specs.Languages.{word_says, symbol_says};
ghost use Rattle.text_laws.specs.Parsers.{next, one, is_word, is_sign, number};
ghost use Rattle.text_laws.specs.MissionReading.{version_at, name_at};
ghost use Rattle.ddl_read.specs.Spelled.{AreSpelled, spellings};
ghost use Rattle.ddl_read.specs.Answers.{Gives};

use crate::name::is_name;
use crate::unread::Unread;
use crate::{Piece, PieceKind};
use hs_base::Name;
use std::alloc::Global;
use std::marker::Model;

/// What is left of a text's pieces.
#[derive(Drop)]
pub struct Reader<'a> {
    text: &'a [u8],
    rest: &'a [Piece],
}

impl<'a> Model for Reader<'a> {
    ghost use Rattle.std.specs.Prelude.{List};
    ghost use Rattle.hs_texts.specs.Pieces.{Piece as Spelling};
    ghost use Rattle.ddl_read.specs.Spelled.{spellings, AreSpelled};

    ghost Value = { List Spelling };

    ghost view = { λ reader. spellings reader.text.now reader.rest.now };

    ghost invariant = { λ reader. AreSpelled reader.text.now reader.rest.now };
}

impl<'a> Reader<'a> {
    /// Begins to read these pieces of a text.
    pub fn new(text: &'a [u8], rest: &'a [Piece]) -> Reader<'a>
        requires { AreSpelled text.now rest.now }
        ensures { result ≡ spellings text.now rest.now }
    {
        Reader { text, rest }
    }

    /// The number of pieces that are left.
    pub fn left(&self) -> usize
        ensures { result ≡ length self.now }
    {
        self.rest.len()
    }

    /// Whether the next piece is this word.
    pub fn is_at(&self, word: &[u8]) -> bool
        ensures { result ≡ is_word word.now (next self.now) }
    {
        match self.rest {
            [piece, ..] if piece.kind == PieceKind::Word => {
                let from = piece.place as usize;
                let bytes = &self.text[from..from + piece.length as usize];
                bytes == word
            }
            _ => false,
        }
    }

    /// Whether the next piece is this symbol.
    pub fn is_at_symbol(&self, symbol: u8) -> bool
        ensures { result ≡ is_sign symbol (next self.now) }
    {
        match self.rest {
            [piece, ..] => piece.kind == PieceKind::Symbol(symbol),
            [] => false,
        }
    }

    /// Reads this word.
    pub fn keyword(&mut self, word: &[u8]) -> Result<(), Unread>
        ensures { Gives result self.new (one (word_says word.now) self.old) }
    {
        match self.rest {
            [piece, rest @ ..] if piece.kind == PieceKind::Word => {
                let from = piece.place as usize;
                let bytes = &self.text[from..from + piece.length as usize];
                if bytes != word {
                    return Err(Unread::Text);
                }
                self.rest = rest;
                Ok(())
            }
            _ => Err(Unread::Text),
        }
    }

    /// Reads this symbol.
    pub fn symbol(&mut self, symbol: u8) -> Result<(), Unread>
        ensures { Gives result self.new (one (symbol_says symbol) self.old) }
    {
        match self.rest {
            [piece, rest @ ..] if piece.kind == PieceKind::Symbol(symbol) => {
                self.rest = rest;
                Ok(())
            }
            _ => Err(Unread::Text),
        }
    }

    /// Reads a number.
    pub fn number(&mut self) -> Result<i64, Unread>
        ensures { Gives result self.new (number self.old) }
    {
        match self.rest {
            [piece, rest @ ..] => match piece.kind {
                PieceKind::Number(number) => {
                    self.rest = rest;
                    Ok(number)
                }
                _ => Err(Unread::Text),
            },
            [] => Err(Unread::Text),
        }
    }

    /// Reads the version of a mission text, 1 or 2.
    #[tactic(auto, unfolding(text_laws::specs::MissionReading::version_at))]
    pub fn version(&mut self) -> Result<u32, Unread>
        ensures { Gives result self.new (version_at self.old) }
    {
        match self.rest {
            [piece, rest @ ..] => match piece.kind {
                PieceKind::Number(1) => {
                    self.rest = rest;
                    Ok(1)
                }
                PieceKind::Number(2) => {
                    self.rest = rest;
                    Ok(2)
                }
                _ => Err(Unread::Text),
            },
            [] => Err(Unread::Text),
        }
    }

    /// Reads a name.
    #[tactic(auto, unfolding(text_laws::specs::MissionReading::name_at))]
    pub fn name(&mut self, alloc: Global, version: u32) -> Result<Name, Unread>
        ensures { Gives result self.new (name_at version self.old) }
    {
        match self.rest {
            [piece, rest @ ..] if piece.kind == PieceKind::Word => {
                let from = piece.place as usize;
                let bytes = &self.text[from..from + piece.length as usize];
                if !is_name(bytes) {
                    return Err(Unread::Text);
                }
                let name = Name::from_bytes(alloc, bytes)?;
                self.rest = rest;
                Ok(name)
            }
            _ => Err(Unread::Text),
        }
    }
}
