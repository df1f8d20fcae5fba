ghost use Rattle.std.specs.Prelude.{ℕ};
ghost use Rattle.std.specs.declared.option.Option.{Option};
ghost use Rattle.hs_port.specs.Causes.{HasCause};
ghost use Rattle.hs_port.specs.Told.{TicksOnce};

use crate::Failed;

/// What gives the ticks of a run.
pub trait Clock {
    /// The number of ticks given, where it tells it.
    ghost ticks: { Self → Option ℕ };

    /// How often it has failed; the count stays at its greatest value.
    ghost faults: { Self → ℕ };

    /// Answers when the next tick has come. `Failed` comes only with a fault counted.
    fn tick(&mut self) -> Result<(), Failed>
        ensures ticks { TicksOnce (ticks self.old) (ticks self.new) result }
        ensures cause { HasCause (faults self.old) (faults self.new) result };
}
