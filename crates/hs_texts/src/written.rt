//! Plans as their texts spell them, with names in place of numbers.
ghost use Rattle.std.specs.Prelude.{◌≡◌};
ghost use Rattle.hs_texts.specs.PlanGrammar.{point_size};

use hs_base::{List, Name};

/// A time point.
#[derive(Debug, PartialEq, Drop)]
pub enum WrittenPoint {
    Origin,
    /// The horizon with this number, counted from 1.
    Horizon(u32),
    /// The end of a token.
    End(WrittenToken),
}

impl WrittenPoint {
    /// The number of pieces of its text.
    pub fn size(&self) -> u32
        ensures { result ≡ point_size self.now }
    {
        match self {
            WrittenPoint::Origin => 1,
            WrittenPoint::Horizon(_) => 2,
            WrittenPoint::End(_) => 2,
        }
    }
}

/// A token by its variable and its place.
#[derive(Debug, PartialEq, Drop)]
pub struct WrittenToken {
    pub sv: Name,
    pub place: u32,
}

/// The time of a point, in ticks.
#[derive(Debug, PartialEq, Drop)]
pub struct WrittenTime {
    pub point: WrittenPoint,
    pub at: i64,
}

/// A value of a variable.
#[derive(Debug, PartialEq, Drop)]
pub struct WrittenKind {
    pub sv: Name,
    pub value: Name,
}

/// The token that serves a need of a token.
#[derive(Debug, PartialEq, Drop)]
pub struct WrittenSupport {
    pub token: WrittenToken,
    pub need: u32,
    pub by: WrittenToken,
}

/// What stands in an extension's text behind its number.
#[derive(Debug, PartialEq, Drop)]
pub struct WrittenBody {
    pub since: i64,
    pub fixed: List<WrittenTime>,
    pub tokens: List<WrittenKind>,
    pub supports: List<WrittenSupport>,
    pub goals: List<WrittenToken>,
}

/// An extension of a plan of `base` extensions.
#[derive(Debug, PartialEq, Drop)]
pub struct WrittenExtension {
    pub base: u32,
    pub body: WrittenBody,
}
