//! Tests of the readers and writers of texts.
#![tactic(auto)]

#[cfg(test)]
mod acceptances;
#[cfg(test)]
mod drills;
#[cfg(test)]
mod lines;
#[cfg(test)]
mod plans;
#[cfg(test)]
mod printings;
#[cfg(test)]
mod readings;
#[cfg(test)]
mod words;
