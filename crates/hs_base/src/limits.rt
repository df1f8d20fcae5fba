/// The greatest tick, which texts spell `inf`.
pub const LAST: i64 = 1_000_000_000;

/// The most bytes of an input.
pub const TEXT_BYTES: usize = 1_048_576;

/// The most bytes of a name.
pub const NAME_BYTES: usize = 32;

/// The most variables of a mission.
pub const VARIABLES: usize = 16;

/// The most values of a variable.
pub const VALUES: usize = 256;

/// The most needs of a mission.
pub const NEEDS: usize = 256;

/// The most choices of a need.
pub const CHOICES: usize = 8;

/// The most horizons of a mission.
pub const HORIZONS: usize = 1_000;

/// The greatest tick of a horizon.
pub const LAST_HORIZON: i64 = 1_000_000;

/// The most goals of a horizon.
pub const GOALS: usize = 16;

/// The most steps of a script.
pub const SCRIPT_STEPS: usize = 16;

/// The most `answers` clauses of a value.
pub const ANSWER_CLAUSES: usize = 64;

/// The most answers of an `answers` clause.
pub const ANSWERS: usize = 16;

/// The most tokens that one extension adds.
pub const NEW_TOKENS: usize = 128;

/// The most points of a plan whose times no extension fixes.
pub const FREE_POINTS: usize = 1_024;
