//! A mission as its text spells it, with names in place of numbers.

use hs_base::{List, Name, Range, Relation};

/// A sort of items that parameters range over.
#[derive(Debug, PartialEq, Drop)]
pub struct Sort {
    pub name: Name,
    pub items: List<Name>,
}

/// A parameter of a value, with its sort.
#[derive(Debug, PartialEq, Drop)]
pub struct Param {
    pub name: Name,
    pub sort: Name,
}

/// What stands for a parameter where a value is named; `Any` stands for each item of its sort.
#[derive(Debug, PartialEq, Drop)]
pub enum Arg {
    Name(Name),
    Any,
}

/// A place where a value is named, with its arguments.
#[derive(Debug, PartialEq, Drop)]
pub struct Use {
    pub name: Name,
    pub args: List<Arg>,
}

/// A step of a script.
#[derive(Debug, PartialEq, Drop)]
pub enum AstStep {
    Do { word: Name, amount: i64 },
    Until { word: Name },
}

/// A word that a simulated device says, and after how many ticks.
#[derive(Debug, PartialEq, Drop)]
pub struct AstSaid {
    pub delay: i64,
    pub word: Name,
}

/// A value of a variable, named as `variable.value`.
#[derive(Debug, PartialEq, Drop)]
pub struct AstKind {
    pub sv: Name,
    pub value: Use,
}

/// A `value` clause. `lasts` has one range, or one for each tuple of items where a table stands.
#[derive(Debug, PartialEq, Drop)]
pub struct AstValue {
    pub name: Name,
    pub params: List<Param>,
    pub lasts: List<Range>,
    pub by_device: bool,
    pub next: List<Use>,
    pub script: List<AstStep>,
    pub answers: List<List<AstSaid>>,
}

/// A `var` clause.
#[derive(Debug, PartialEq, Drop)]
pub struct AstVar {
    pub name: Name,
    pub values: List<AstValue>,
    pub begin: Option<Use>,
}

/// A choice of a `need` clause.
#[derive(Debug, PartialEq, Drop)]
pub struct AstChoice {
    pub relation: Relation,
    pub by: AstKind,
}

/// A `need` clause.
#[derive(Debug, PartialEq, Drop)]
pub struct AstNeed {
    pub of: AstKind,
    pub either: List<AstChoice>,
}

/// A `goal` clause. A range that the text leaves out is `[0,inf]`.
#[derive(Debug, PartialEq, Drop)]
pub struct AstGoal {
    pub kind: AstKind,
    pub start: Range,
    pub stop: Range,
}

/// A `horizon` clause with its goals.
#[derive(Debug, PartialEq, Drop)]
pub struct AstHorizon {
    pub tick: i64,
    pub goals: List<AstGoal>,
}

/// A mission text. `version` is the number after `hsts`.
#[derive(Debug, PartialEq, Drop)]
pub struct Ast {
    pub version: u32,
    pub sorts: List<Sort>,
    pub vars: List<AstVar>,
    pub needs: List<AstNeed>,
    pub horizons: List<AstHorizon>,
}
