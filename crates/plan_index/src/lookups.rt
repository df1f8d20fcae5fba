ghost use Rattle.std.specs.Prelude.{◌≡◌, ◌==◌, count_by};
ghost use Rattle.hs_base.specs.Points.{value_of, is_by_device};

use hs_base::{Kind, Mission};

/// Whether a device ends tokens of that kind.
pub(crate) fn is_ended_by_device(mission: &Mission, kind: Kind) -> bool
    ensures { result ≡ is_by_device (value_of mission.now kind) }
{
    match mission.value(kind) {
        Some(value) => value.by_device,
        None => false,
    }
}

/// How many of the tokens are of the variable.
pub(crate) fn count_of(tokens: &[Kind], sv: u32) -> usize
    ensures { result ≡ count_by (λ k. k.sv.0 == sv) tokens.now }
{
    tokens.iter().filter(|k| k.sv.0 == sv).count()
}
