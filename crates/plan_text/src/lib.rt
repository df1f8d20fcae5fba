//! The texts of plans and networks, written and read, and the parts that other texts share with them.
#![tactic(auto)]

mod body;
mod laws;
mod naming;
mod nets;
mod parts;
mod plans;
mod read_body;
mod read_plan;
mod reader;
mod reading;
mod stop;
mod written_plan;

pub use body::push_body;
pub use laws::{
    a_plan_text_has_one_answer, a_plan_text_spells_one_plan, checked_plans_are_writable,
    plans_are_read, plans_are_read_back,
};
pub use naming::{extension_of, point_of, sv_of};
pub use nets::{push_counts, write_net};
pub use parts::{
    push_bound, push_bound_with, push_name, push_number, push_point, push_signed, push_variable,
};
pub use plans::{point_text, write};
pub use read_plan::read;
pub use reader::PlanReader;
pub use reading::place_before;
pub use stop::Stop;
pub use written_plan::WrittenPlan;
