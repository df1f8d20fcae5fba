ghost use Rattle.std.specs.Prelude.{◌≡◌, ◌+◌, ◌++◌, List, slice_get, option_map, codes, OnOk};
ghost use Rattle.std.specs.Fmt.{decimal, signed_decimal};
ghost use Rattle.hs_base.specs.declared.plan.Extension.{Extension};
ghost use Rattle.hs_texts.specs.Written.{variable_name, point_in, bound_in, body_in};
ghost use Rattle.hs_texts.specs.NetText.{counts_text};
ghost use Rattle.log_laws.specs.LogText.{at_text, fired_text, deed_text, phase_text, stop_text};
ghost use Rattle.plan_index.specs.Contents.{contents_of, extended};
ghost use Rattle.plan_index.specs.Named.{named};

use hs_base::{Bound, Extension, Memory, Mission, Net, PointId, SvId};
use hs_machine::{Deed, Phase};
use hs_texts::Text;
use plan_index::{PlanIndex, PointName};
use plan_text::{
    push_body, push_bound, push_bound_with, push_counts, push_name, push_number, push_point,
    push_signed, push_variable,
};

fn push_at(text: &mut Text, now: u64) -> Result<(), Memory>
    ensures { OnOk result (text.new ≡ text.old ++ at_text now) }
{
    text.push_bytes(b" at ")?;
    push_number(text, now)
}

fn push_fired(text: &mut Text, mission: &Mission, name: Option<PointName>) -> Result<(), Memory>
    ensures { OnOk result (text.new ≡ text.old ++ fired_text mission.now (option_map named name)) }
{
    match name {
        None => Ok(()),
        Some(PointName::Horizon(k)) => {
            text.push_bytes(b"horizon ")?;
            push_number(text, u64::from(k))
        }
        Some(name) => {
            text.push_bytes(b"fire ")?;
            push_name(text, mission, name)
        }
    }
}

fn push_fire(
    text: &mut Text,
    mission: &Mission,
    index: &PlanIndex,
    point: PointId,
    now: u64,
) -> Result<(), Memory>
    ensures { OnOk result (text.new
        ≡ text.old ++ (fired_text mission.now (slice_get index.now.points point.0) ++ at_text now ++ codes "\n")) }
{
    push_fired(text, mission, index.name(point))?;
    push_at(text, now)?;
    text.push_bytes(b"\n")
}

fn push_report(
    text: &mut Text,
    mission: &Mission,
    index: &PlanIndex,
    point: PointId,
    now: u64,
) -> Result<(), Memory>
    ensures { OnOk result (text.new
        ≡ text.old ++ (codes "report " ++ point_in mission.now index.now.points point.0 ++ at_text now ++ codes "\n")) }
{
    text.push_bytes(b"report ")?;
    push_point(text, mission, index, point)?;
    push_at(text, now)?;
    text.push_bytes(b"\n")
}

fn push_handover(
    text: &mut Text,
    mission: &Mission,
    index: &PlanIndex,
    extension: &Extension,
    net: &Net,
    now: u64,
) -> Result<(), Memory>
    ensures { OnOk result (text.new
        ≡ text.old
        ++ (codes "handover " ++ decimal (extension.now.base + 1) ++ at_text now ++ codes " "
        ++ counts_text net.now ++ codes "\n" ++ body_in mission.now index.now.points extension.now)) }
{
    text.push_bytes(b"handover ")?;
    push_number(text, u64::from(extension.base) + 1)?;
    push_at(text, now)?;
    text.push_bytes(b" ")?;
    push_counts(text, net)?;
    text.push_bytes(b"\n")?;
    push_body(text, mission, index, extension)
}

/// The bound that a stale plan breaks, and the times of its points.
fn push_missed(
    text: &mut Text,
    mission: &Mission,
    index: &PlanIndex,
    extension: &Extension,
    bound: &Bound,
    times: (i64, i64),
) -> Result<(), Memory>
    ensures { OnOk result (text.new
        ≡ text.old
        ++ (codes " bound " ++ bound_in mission.now (extended index.now extension.now).points bound.now
        ++ codes " times " ++ signed_decimal times.0 ++ codes " " ++ signed_decimal times.1
        ++ codes "\n")) }
{
    text.push_bytes(b" bound ")?;
    push_bound_with(text, mission, index, extension, bound)?;
    text.push_bytes(b" times ")?;
    push_signed(text, times.0)?;
    text.push_bytes(b" ")?;
    push_signed(text, times.1)?;
    text.push_bytes(b"\n")
}

fn push_stale(
    text: &mut Text,
    mission: &Mission,
    index: &PlanIndex,
    extension: &Extension,
    bound: &Bound,
    times: (i64, i64),
    now: u64,
) -> Result<(), Memory>
    ensures { OnOk result (text.new
        ≡ text.old
        ++ (codes "stale " ++ decimal (extension.now.base + 1) ++ at_text now ++ codes " bound "
        ++ bound_in mission.now (extended index.now extension.now).points bound.now
        ++ codes " times " ++ signed_decimal times.0 ++ codes " " ++ signed_decimal times.1
        ++ codes "\n" ++ body_in mission.now index.now.points extension.now)) }
{
    text.push_bytes(b"stale ")?;
    push_number(text, u64::from(extension.base) + 1)?;
    push_at(text, now)?;
    push_missed(text, mission, index, extension, bound, times)?;
    push_body(text, mission, index, extension)
}

/// A line that names a bound that was broken, and how.
fn push_break(
    text: &mut Text,
    mission: &Mission,
    index: &PlanIndex,
    how: &[u8],
    bound: &Bound,
    now: u64,
) -> Result<(), Memory>
    ensures { OnOk result (text.new
        ≡ text.old ++ (how.now ++ bound_in mission.now index.now.points bound.now ++ at_text now ++ codes "\n")) }
{
    text.push_bytes(how)?;
    push_bound(text, mission, index, bound)?;
    push_at(text, now)?;
    text.push_bytes(b"\n")
}

fn push_broken(text: &mut Text, mission: &Mission, sv: SvId, now: u64) -> Result<(), Memory>
    ensures { OnOk result (text.new
        ≡ text.old ++ (codes "broken " ++ variable_name mission.now sv.0 ++ at_text now ++ codes "\n")) }
{
    text.push_bytes(b"broken ")?;
    push_variable(text, mission, sv)?;
    push_at(text, now)?;
    text.push_bytes(b"\n")
}

/// What an entry writes at that time, where the index is that of the newest plan before it.
pub(crate) fn push_deed(
    text: &mut Text,
    mission: &Mission,
    index: &PlanIndex,
    now: u64,
    deed: &Deed,
) -> Result<(), Memory>
    ensures { (es : List Extension) → index.now ≡ contents_of es
        → OnOk result (text.new ≡ text.old ++ deed_text mission.now now es deed.now) }
{
    match deed {
        Deed::Tick => Ok(()),
        Deed::Fire(point) => push_fire(text, mission, index, *point, now),
        Deed::Report(point) => push_report(text, mission, index, *point, now),
        Deed::Handover { extension, net } => {
            push_handover(text, mission, index, extension, net, now)
        }
        Deed::Stale {
            extension,
            bound,
            from_time,
            to_time,
        } => push_stale(
            text,
            mission,
            index,
            extension,
            bound,
            (*from_time, *to_time),
            now,
        ),
        Deed::Late(bound) => push_break(text, mission, index, b"late ", bound, now),
        Deed::Early(bound) => push_break(text, mission, index, b"early ", bound, now),
        Deed::Broken(sv) => push_broken(text, mission, *sv, now),
    }
}

/// The last line: where the executive stopped, and when.
pub(crate) fn push_stop(text: &mut Text, phase: Phase, now: u64) -> Result<(), Memory>
    ensures { OnOk result (text.new ≡ text.old ++ stop_text phase now) }
{
    text.push_bytes(b"stop ")?;
    text.push_bytes(phase_word(phase))?;
    push_at(text, now)?;
    text.push_bytes(b"\n")
}

fn phase_word(phase: Phase) -> &'static [u8]
    ensures { result.now ≡ phase_text phase }
{
    match phase {
        Phase::Waiting => b"waiting",
        Phase::Running => b"running",
        Phase::Failed => b"failed",
        Phase::Ended => b"ended",
    }
}
