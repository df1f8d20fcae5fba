use hs_base::{Bound, PointId};
use line_view::Line;

/// What the executive answers.
#[derive(Clone, Copy, Debug, PartialEq, Eq)]
pub enum Reply {
    /// The event took place.
    Done,
    /// This point has to be fired before the time goes on.
    Due {
        point: PointId,
    },
    /// The point may not be executed now, by this bound.
    NotYet {
        bound: Bound,
    },
    /// The point is executed together with this one, which a device tells.
    Waits {
        point: PointId,
    },
    /// A device tells when the point is executed.
    Observed,
    /// No device tells when the point is executed.
    NotObserved,
    /// The point was executed at this tick.
    Already {
        at: i64,
    },
    /// There is no such point or variable.
    NoPoint,
    /// The run has failed: a device broke this bound, or kept silent for so long that the next tick
    /// would break it.
    Failed {
        bound: Bound,
    },
    /// The plan comes too late: no schedule of it agrees with the executed times and gives every
    /// other point now or more. It breaks this bound, whose points stand at these two ticks; one
    /// that isn't executed is taken at now.
    Stale {
        bound: Bound,
        from_time: i64,
        to_time: i64,
    },
    /// The plan isn't the newest one with one more extension: the newest has `current` extensions,
    /// and the two agree on `agree` of them.
    NotNext {
        current: u32,
        agree: u32,
    },
    /// The run is over.
    Over,
    /// No plan was handed over yet.
    NoNet,
    /// The plan was made for another mission.
    OtherMission,
    /// What is shown of a timeline.
    Line(Line),
    /// No memory is left.
    Memory,
}
