//! Tests of logs that are read, and of what is written and read back.
#![tactic(auto)]

#[cfg(test)]
mod entries;
#[cfg(test)]
mod refusals;
#[cfg(test)]
mod stops;
