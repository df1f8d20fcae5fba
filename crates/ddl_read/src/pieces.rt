ghost use Rattle.std.specs.Prelude.{◌≡◌, ◌<◌, ◌^◌, length, map, drop, slice_get, OnOk, IfErr, MatchResult};
ghost use Rattle.std.specs.Str.{IsUtf8};
ghost use Rattle.hs_texts.specs.Pieces.{IsCutRefusal, place_in};
ghost use Rattle.text_laws.specs.Refused.{OrMemory};
ghost use Rattle.ddl_read.specs.Spelled.{placed, spellings};
ghost use Rattle.ddl_read.specs.Cutting.{IsCut, IsUtf8Refusal};

use crate::Piece;
use crate::cut::cut_pieces;
use crate::large::first_large;
use crate::reader::Reader;
use hs_base::{List, TEXT_BYTES};
use hs_texts::Refusal;
use std::alloc::Global;
use std::marker::Model;
use std::str::from_utf8;

/// A text, cut into its pieces.
#[derive(Debug, Drop)]
pub struct Pieces<'a> {
    text: &'a [u8],
    pieces: List<Piece>,
}

impl<'a> Model for Pieces<'a> {
    ghost use Rattle.ddl_read.specs.Cutting.{CutText, IsCut};

    ghost Value = { CutText };

    ghost view = { λ cut. record { bytes = cut.text.now; pieces = cut.pieces } };

    ghost invariant = { λ cut. IsCut cut.text.now cut.pieces };
}

/// Refuses bytes that are no UTF-8, at the first that begins no valid sequence.
fn check_utf8(text: &[u8]) -> Result<(), Refusal>
    requires { length text.now < 2 ^ 32 }
    ensures ok { OnOk result (IsUtf8 text.now) }
    ensures err { IfErr result (IsUtf8Refusal text.now) }
{
    match from_utf8(text) {
        Ok(_) => Ok(()),
        Err(error) => Err(Refusal::NotUtf8 {
            at: error.valid_up_to() as u32,
        }),
    }
}

impl<'a> Pieces<'a> {
    /// Cuts a text into pieces. Refusals are a text that is too long, the first byte that begins
    /// no valid UTF-8, the first character outside comments that begins no piece, and the first
    /// number of more than ten digits or greater than LAST, in this order.
    pub fn cut(alloc: Global, text: &'a [u8]) -> Result<Pieces<'a>, Refusal>
        ensures { MatchResult result (λ cut. (cut.bytes ≡ text.now) × IsCut cut.bytes cut.pieces) (OrMemory (IsCutRefusal text.now)) }
    {
        if text.len() > TEXT_BYTES {
            return Err(Refusal::Limit { which: 1 });
        }
        check_utf8(text)?;
        let pieces = cut_pieces(alloc, text)?;
        if let Some(at) = first_large(&pieces) {
            return Err(Refusal::Number { at });
        }
        Ok(Pieces { text, pieces })
    }

    /// The number of pieces.
    pub fn count(&self) -> u32
        ensures { result ≡ length self.now.pieces }
    {
        self.pieces.len() as u32
    }

    /// The piece of that number, counted from 0; none past the end.
    pub fn get(&self, i: u32) -> Option<Piece>
        ensures { result ≡ slice_get self.now.pieces i }
    {
        self.pieces.as_slice().get(i as usize).copied()
    }

    /// The bytes that were cut.
    pub fn text(&self) -> &[u8]
        ensures { result.now ≡ self.now.bytes }
    {
        self.text
    }

    /// The pieces.
    pub fn as_slice(&self) -> &[Piece]
        ensures pieces { result.now ≡ self.now.pieces }
        ensures cut { IsCut self.now.bytes self.now.pieces }
    {
        self.pieces.as_slice()
    }

    /// A reader of the pieces from that number on.
    pub fn reader(&self, from: u32) -> Reader<'_>
        ensures { result ≡ spellings self.now.bytes (drop from self.now.pieces) }
    {
        let pieces = self.as_slice();
        let (_, rest) = pieces.split_at(pieces.len().min(from as usize));
        Reader::new(self.text, rest)
    }

    /// The place of the piece of that number, or the length of the text past the end.
    pub fn place(&self, i: u32) -> u32
        ensures { result ≡ place_in (length self.now.bytes) (map (placed self.now.bytes) self.now.pieces) i }
    {
        match self.get(i) {
            Some(piece) => piece.place,
            None => self.text.len() as u32,
        }
    }
}
