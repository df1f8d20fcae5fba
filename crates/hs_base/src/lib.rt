//! The plain data of missions, plans and networks, and the definitions that contracts cite of them:
//! points, bounds, schedules, legal timelines, checked plans and their faults.
#![tactic(auto)]

mod copies;
mod fault;
mod ids;
mod limits;
mod list;
mod memory;
mod mission;
mod name;
mod net;
mod plan;
mod range;
mod relation;
mod same;

pub use copies::Copies;
pub use fault::Fault;
pub use ids::{PointId, SvId, ValId, WordId};
pub use limits::{
    ANSWER_CLAUSES, ANSWERS, CHOICES, FREE_POINTS, GOALS, HORIZONS, LAST, LAST_HORIZON, NAME_BYTES,
    NEEDS, NEW_TOKENS, SCRIPT_STEPS, TEXT_BYTES, VALUES, VARIABLES,
};
pub use list::List;
pub use memory::Memory;
pub use mission::{Choice, Goal, Horizon, Kind, Mission, Need, Said, Step, Value, Var};
pub use name::Name;
pub use net::{Bound, Group, Member, Net};
pub use plan::{Extension, Plan, Support, Time, TokenRef};
pub use range::Range;
pub use relation::Relation;
pub use same::Same;
