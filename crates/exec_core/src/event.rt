use crate::Offer;
use hs_base::{PointId, SvId};

/// What the executive is told.
#[derive(Drop)]
pub enum Event {
    /// The time goes on by one tick.
    Tick,
    /// A point is to be executed now.
    Fire(PointId),
    /// A device tells that a point is executed now.
    Report(PointId),
    /// The device of a variable failed.
    Broken(SvId),
    /// A plan is offered.
    Handover(Offer),
    /// The timeline of a variable is to be shown.
    Line(SvId),
}
