//! Entries with the mission's numbers in place of names.
ghost use Rattle.std.specs.Prelude.{◌≡◌, ◌∷◌, ◌++◌, List, [], IfOk, OnOk};
ghost use Rattle.hs_base.specs.declared.plan.Extension.{Extension as ExtensionSpec};
ghost use Rattle.plan_index.specs.Contents.{contents_of};
ghost use Rattle.plan_text.specs.Naming.{Resolves};
ghost use Rattle.journal_read.specs.LogSpelling.{BoundMeans, DeedMeans, EntryMeans, EntriesMean, no_net as no_net_spec, plan_after, plan_in, unknown_in_bound, unknown_in_deed, unknown_in_entries, groups_in, edges_in};
ghost use Rattle.hs_texts.specs.PlanSpelling.{ExtensionMeans, unknown_in_body};

use crate::noted::Noted;
use hs_base::{Bound, Extension, List, Memory, Mission, Net};
use hs_machine::Deed;
use hs_texts::{Refusal, WrittenExtension};
use log_laws::{WrittenBound, WrittenDeed, WrittenEntry};
use plan_index::PlanIndex;
use plan_text::{extension_of, point_of, sv_of};
use std::alloc::Global;

/// Takes in a further extension. Want of memory comes also where the points have no numbers any
/// more, which a text is too short for.
fn extend(index: &mut PlanIndex, extension: &Extension) -> Result<(), Memory>
    ensures { (es : List ExtensionSpec) → index.old ≡ contents_of es → OnOk result (index.new ≡ contents_of (es ++ extension.now ∷ [])) }
{
    let Some(points) = index.points().checked_add(extension.tokens.len()) else {
        return Err(Memory);
    };
    if points >= u32::MAX as usize {
        return Err(Memory);
    }
    index.extend(extension)
}

/// The plan behind a deed.
fn follow(index: &mut PlanIndex, deed: &Deed) -> Result<(), Memory>
    ensures { (es : List ExtensionSpec) → index.old ≡ contents_of es → OnOk result (index.new ≡ contents_of (plan_after es deed.now)) }
{
    match deed {
        Deed::Handover { extension, .. } => extend(index, extension),
        _ => Ok(()),
    }
}

/// The plan behind these entries.
fn index_of(alloc: Global, noted: &[Noted]) -> Result<PlanIndex, Memory>
    ensures { IfOk result (λ index. index ≡ contents_of (plan_in noted.now)) }
{
    let mut index = PlanIndex::new(alloc)?;
    for entry in noted {
        follow(&mut index, &entry.what)?;
    }
    Ok(index)
}

/// The plan behind these entries, with an extension more.
fn joined(alloc: Global, noted: &[Noted], extension: &Extension) -> Result<PlanIndex, Memory>
    ensures { IfOk result (λ index. index ≡ contents_of (plan_in noted.now ++ extension.now ∷ [])) }
{
    let mut index = index_of(alloc, noted)?;
    extend(&mut index, extension)?;
    Ok(index)
}

/// The bound of the plan that is indexed.
fn bound_of(
    alloc: Global,
    mission: &Mission,
    index: &PlanIndex,
    written: &WrittenBound,
) -> Result<Bound, Refusal>
    ensures { (es : List ExtensionSpec) → index.now ≡ contents_of es
        → Resolves result (unknown_in_bound mission.now written.now) (BoundMeans mission.now es written.now) }
{
    let from = point_of(alloc, mission, index, &written.from)?;
    let to = point_of(alloc, mission, index, &written.to)?;
    Ok(Bound {
        from,
        to,
        most: written.most,
    })
}

/// The network of no group and no edge.
fn no_net(alloc: Global) -> Net
    ensures { result ≡ no_net_spec }
{
    Net {
        groups: List::new(alloc),
        edges: List::new(alloc),
    }
}

/// A bound of the plan with an extension that came too late, the entries before which are noted.
fn late_bound_of(
    alloc: Global,
    mission: &Mission,
    noted: &[Noted],
    extension: &Extension,
    written: &WrittenBound,
) -> Result<Bound, Refusal>
    ensures { Resolves result (unknown_in_bound mission.now written.now) (BoundMeans mission.now (plan_in noted.now ++ extension.now ∷ []) written.now) }
{
    let index = joined(alloc, noted, extension)?;
    bound_of(alloc, mission, &index, written)
}

/// An extension that came too late, and a bound of the plan with it. The bound stands before the
/// extension, so that its names are looked up first.
fn stale_of(
    alloc: Global,
    mission: &Mission,
    index: &PlanIndex,
    noted: &[Noted],
    written: &WrittenExtension,
    bound: &WrittenBound,
) -> Result<(Extension, Bound), Refusal>
    ensures { index.now ≡ contents_of (plan_in noted.now)
        → Resolves result (unknown_in_bound mission.now bound.now ++ unknown_in_body mission.now written.now.body)
        (λ stale. ExtensionMeans mission.now (plan_in noted.now) written.now stale.0 × BoundMeans mission.now (plan_in noted.now ++ stale.0 ∷ []) bound.now stale.1) }
{
    bound_of(alloc, mission, index, bound)?;
    let extension = extension_of(alloc, mission, index, written)?;
    let bound = late_bound_of(alloc, mission, noted, &extension, bound)?;
    Ok((extension, bound))
}

/// The deed behind the entries that are noted.
fn deed_of(
    alloc: Global,
    mission: &Mission,
    index: &PlanIndex,
    noted: &[Noted],
    written: &WrittenDeed,
) -> Result<Deed, Refusal>
    ensures { index.now ≡ contents_of (plan_in noted.now)
        → Resolves result (unknown_in_deed mission.now written.now) (DeedMeans mission.now (plan_in noted.now) written.now) }
{
    match written {
        WrittenDeed::Handover { extension, .. } => {
            let extension = extension_of(alloc, mission, index, extension)?;
            let net = no_net(alloc);
            Ok(Deed::Handover { extension, net })
        }
        WrittenDeed::Stale {
            extension,
            bound,
            from_time,
            to_time,
        } => {
            let (extension, bound) = stale_of(alloc, mission, index, noted, extension, bound)?;
            Ok(Deed::Stale {
                extension,
                bound,
                from_time: *from_time,
                to_time: *to_time,
            })
        }
        WrittenDeed::Fire(point) => Ok(Deed::Fire(point_of(alloc, mission, index, point)?)),
        WrittenDeed::Report(point) => Ok(Deed::Report(point_of(alloc, mission, index, point)?)),
        WrittenDeed::Late(bound) => Ok(Deed::Late(bound_of(alloc, mission, index, bound)?)),
        WrittenDeed::Early(bound) => Ok(Deed::Early(bound_of(alloc, mission, index, bound)?)),
        WrittenDeed::Broken(name) => Ok(Deed::Broken(sv_of(alloc, mission, name)?)),
    }
}

/// The number of groups of a handover's network.
fn groups_of(written: &WrittenDeed) -> u32
    ensures { result ≡ groups_in written.now }
{
    match written {
        WrittenDeed::Handover { groups, .. } => *groups,
        _ => 0,
    }
}

/// The number of edges of a handover's network.
fn edges_of(written: &WrittenDeed) -> u32
    ensures { result ≡ edges_in written.now }
{
    match written {
        WrittenDeed::Handover { edges, .. } => *edges,
        _ => 0,
    }
}

/// The entry behind those that are noted.
fn entry_of(
    alloc: Global,
    mission: &Mission,
    index: &PlanIndex,
    noted: &[Noted],
    written: &WrittenEntry,
) -> Result<Noted, Refusal>
    ensures { index.now ≡ contents_of (plan_in noted.now)
        → Resolves result (unknown_in_deed mission.now written.now.deed) (EntryMeans mission.now (plan_in noted.now) written.now) }
{
    Ok(Noted {
        at: written.at,
        what: deed_of(alloc, mission, index, noted, &written.deed)?,
        groups: groups_of(&written.deed),
        edges: edges_of(&written.deed),
    })
}

/// The entries of these names.
pub fn entries_of(
    alloc: Global,
    mission: &Mission,
    written: &[WrittenEntry],
) -> Result<List<Noted>, Refusal>
    ensures { Resolves result (unknown_in_entries mission.now written.now) (EntriesMean mission.now [] written.now) }
{
    let mut index = PlanIndex::new(alloc)?;
    let mut noted = List::new(alloc);
    for one in written {
        let entry = entry_of(alloc, mission, &index, noted.as_slice(), one)?;
        follow(&mut index, &entry.what)?;
        noted.push(entry)?;
    }
    Ok(noted)
}
