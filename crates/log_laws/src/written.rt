//! Logs as their texts spell them, with names in place of numbers.

use hs_base::{List, Name};
use hs_machine::Phase;
use hs_texts::{WrittenBody, WrittenExtension, WrittenPoint};

/// A bound between two points, in ticks.
#[derive(Debug, PartialEq, Drop)]
pub struct WrittenBound {
    pub from: WrittenPoint,
    pub to: WrittenPoint,
    pub most: i64,
}

/// A broken bound, the two times that break it, and the body of the extension that has it.
#[derive(Debug, PartialEq, Drop)]
pub struct WrittenMiss {
    pub bound: WrittenBound,
    pub from_time: i64,
    pub to_time: i64,
    pub body: WrittenBody,
}

/// What an entry tells but its time.
#[derive(Debug, PartialEq, Drop)]
pub enum WrittenDeed {
    /// A plan was handed over, with a network of so many groups and edges.
    Handover {
        extension: WrittenExtension,
        groups: u32,
        edges: u32,
    },
    /// A plan came too late, since these two times break a bound of it.
    Stale {
        extension: WrittenExtension,
        bound: WrittenBound,
        from_time: i64,
        to_time: i64,
    },
    Fire(WrittenPoint),
    Report(WrittenPoint),
    Late(WrittenBound),
    Early(WrittenBound),
    Broken(Name),
}

/// An entry and its time, in ticks.
#[derive(Debug, PartialEq, Drop)]
pub struct WrittenEntry {
    pub at: i64,
    pub deed: WrittenDeed,
}

/// The entries, and where the executive stopped and when.
#[derive(Debug, PartialEq, Drop)]
pub struct WrittenLog {
    pub entries: List<WrittenEntry>,
    pub phase: Phase,
    pub at: i64,
}
