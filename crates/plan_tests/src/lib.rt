//! Tests of checked plans, partial plans and searches.
#![tactic(auto)]

#[cfg(test)]
mod checks;
#[cfg(test)]
mod indexes;
#[cfg(test)]
mod partial_plans;
#[cfg(test)]
mod points;
#[cfg(test)]
mod resolvers;
#[cfg(test)]
mod searches;
