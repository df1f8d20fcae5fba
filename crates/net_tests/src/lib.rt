//! Tests of schedules, distances, networks and dispatches.
#![tactic(auto)]

#[cfg(test)]
mod chain;
#[cfg(test)]
mod dispatches;
#[cfg(test)]
mod distances;
#[cfg(test)]
mod edges;
#[cfg(test)]
mod groups;
#[cfg(test)]
mod trails;
#[cfg(test)]
mod windows;
