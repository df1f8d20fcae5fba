ghost use Rattle.std.specs.Prelude.{◌≡◌};
ghost use Rattle.std.specs.List.{list_any};
ghost use Rattle.hs_machine.specs.State.{is_failure, has_failed, phase_of, plan_of};
ghost use Rattle.journal_text.specs.Stands.{newest_horizon, executes_point};

use hs_base::PointId;
use hs_machine::{Deed, Entry, Phase};

/// Whether the deed ends a run before its horizon.
fn fails(deed: &Deed) -> bool
    ensures { result ≡ is_failure deed.now }
{
    match deed {
        Deed::Late(_) | Deed::Early(_) | Deed::Broken(_) => true,
        _ => false,
    }
}

fn executes(deed: &Deed, point: PointId) -> bool
    ensures { result ≡ executes_point point.0 deed.now }
{
    match deed {
        Deed::Fire(executed) | Deed::Report(executed) => executed.0 == point.0,
        _ => false,
    }
}

fn has_failure(history: &[Entry]) -> bool
    ensures { result ≡ has_failed history.now }
{
    history.iter().any(|entry| fails(&entry.deed))
}

fn is_executed(history: &[Entry], point: PointId) -> bool
    ensures { result ≡ list_any (λ e. executes_point point.0 e.deed) history.now }
{
    history.iter().any(|entry| executes(&entry.deed, point))
}

/// The phase behind a history, where `newest` is the horizon point of its newest plan.
pub(crate) fn phase(history: &[Entry], newest: Option<PointId>) -> Phase
    requires { newest ≡ newest_horizon (plan_of history.now) }
    ensures { result ≡ phase_of history.now }
{
    if has_failure(history) {
        return Phase::Failed;
    }
    match newest {
        None => Phase::Waiting,
        Some(horizon) if is_executed(history, horizon) => Phase::Ended,
        Some(_) => Phase::Running,
    }
}
