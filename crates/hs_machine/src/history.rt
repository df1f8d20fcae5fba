use hs_base::{Bound, Extension, Net, PointId, SvId};

/// What one entry of a history records.
#[derive(Debug, PartialEq, Drop)]
pub enum Deed {
    /// The time went on by one tick.
    Tick,
    /// A point was executed now.
    Fire(PointId),
    /// A device told the end of its token, which is executed now.
    Report(PointId),
    /// A plan was handed over; its last extension, and the network that it is dispatched by.
    Handover {
        extension: Extension,
        net: Net,
    },
    /// A plan came too late; its last extension, and a bound of it that the times broke.
    Stale {
        extension: Extension,
        bound: Bound,
        from_time: i64,
        to_time: i64,
    },
    /// The next tick would have broken the bound, and only a device could have kept it.
    Late(Bound),
    /// A device's report broke the bound.
    Early(Bound),
    /// A device of that variable failed.
    Broken(SvId),
}

/// One entry of a history, with the number of the pass that made it.
#[derive(Debug, PartialEq, Drop)]
pub struct Entry {
    pub by: u32,
    pub deed: Deed,
}

/// Where an executive stands.
#[derive(Clone, Copy, Debug, PartialEq, Eq)]
pub enum Phase {
    /// No plan was handed over yet.
    Waiting,
    /// The newest plan is being executed.
    Running,
    /// A bound was broken, or a device failed.
    Failed,
    /// The newest plan's horizon was reached.
    Ended,
}
