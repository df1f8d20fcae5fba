//! Tests of scripts, handovers, the executive, its runs, their devices, logs and reasons.
#![tactic(auto)]

#[cfg(test)]
mod devices;
#[cfg(test)]
mod executives;
#[cfg(test)]
mod flights;
#[cfg(test)]
mod handovers;
#[cfg(test)]
mod logs;
#[cfg(test)]
mod reasons;
#[cfg(test)]
mod scripts;
