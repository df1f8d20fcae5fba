//! Why a run failed: bounds of its plan that force the bound which its last entry names.
#![tactic(auto)]

mod failing;

pub use failing::why_failed;
