ghost use Rattle.std.specs.Prelude.{◌≡◌, List, [], ◌∷◌, ◌+◌, ◌<◌, ◌≤◌, ◌^◌, ◌++◌, pos, ◌≤ℤ◌, length, All, OnOk, IfOk};
ghost use Rattle.hs_base.specs.Points.{count};
ghost use Rattle.hs_base.specs.Ranges.{whole, InRange};
ghost use Rattle.hs_base.specs.declared.plan.Extension.{Extension};
ghost use Rattle.hs_base.specs.Bounds.{bounds_of, new_bounds};
ghost use Rattle.hs_base.specs.Missions.{IsMission};
ghost use Rattle.token_net.specs.Conditions.{IsWithin};
ghost use Rattle.plan_index.specs.Contents.{contents_of};
ghost use Rattle.token_net.specs.Items.{extension_items, tokens_ended};

use crate::items::{
    add_fixed, add_goals_of, add_horizon, add_lasts, add_lengths, add_points, add_since,
    add_starts, add_supports,
};
use hs_base::{Bound, Extension, List, Memory, Mission, Plan, PointId, TokenRef};
use plan_index::{PlanIndex, PointName};
use std::alloc::Global;

/// The names of the tokens that end at these points.
fn ended_at(alloc: Global, names: &[PointName]) -> Result<Vec<TokenRef>, Memory>
    ensures { IfOk result (λ tokens. tokens.items ≡ tokens_ended names.now) }
{
    let mut tokens = Vec::with_capacity(alloc, names.len())?;
    for name in names {
        if let PointName::End(token) = name {
            tokens.push(*token)?;
        }
    }
    Ok(tokens)
}

/// Adds the bounds of the extension of that number, with its horizon point and its tokens.
fn add_extension(
    made: &mut List<Bound>,
    mission: &Mission,
    index: &PlanIndex,
    number: usize,
    mark: PointId,
    new: &[TokenRef],
    extension: &Extension,
) -> Result<(), Memory>
    requires mission { IsMission mission.now }
    requires small { length index.now.points < 2 ^ 32 }
    requires mark { mark.0 < length index.now.points }
    requires times { All (λ t. pos 0 ≤ℤ t.at) extension.now.fixed }
    requires since { InRange whole extension.now.since }
    ensures { OnOk result (made.new ≡ made.old ++ extension_items mission.now index.now number mark.0 new.now extension.now) }
{
    let points = index.points() as u32;
    add_horizon(made, mission, number, mark)?;
    add_points(made, mark.0, points)?;
    add_lengths(made, mission, index, new)?;
    add_starts(made, index, mark, new)?;
    add_lasts(made, index, mission.vars.len() as u32, mark)?;
    add_supports(made, mission, index, extension.supports.as_slice())?;
    add_goals_of(made, mission, index, number, extension.goals.as_slice())?;
    add_fixed(made, extension.fixed.as_slice())?;
    add_since(made, index, points, extension.since)?;
    Ok(())
}

/// Adds the bounds of a plan's last extension, by the index of the plan.
fn add_last_extension(
    alloc: Global,
    made: &mut List<Bound>,
    mission: &Mission,
    index: &PlanIndex,
    extension: &Extension,
) -> Result<(), Memory>
    requires mission { IsMission mission.now }
    requires some { 1 ≤ index.now.horizons }
    requires room { length extension.now.tokens + 1 ≤ length index.now.points }
    requires small { length index.now.points < 2 ^ 32 }
    requires times { All (λ t. pos 0 ≤ℤ t.at) extension.now.fixed }
    requires since { InRange whole extension.now.since }
    ensures { (es : List Extension) → index.now ≡ contents_of (es ++ extension.now ∷ []) → OnOk result (made.new ≡ made.old ++ new_bounds mission.now es extension.now) }
{
    let number = index.horizons() - 1;
    let before = index.points() - extension.tokens.len() - 1;
    let new = ended_at(alloc, &index.names()[before + 1..])?;
    add_extension(
        made,
        mission,
        index,
        number,
        PointId(before as u32),
        new.as_slice(),
        extension,
    )
}

/// The bounds that a plan's last extension brings, by the index of the plan.
pub fn new_bounds(
    alloc: Global,
    mission: &Mission,
    index: &PlanIndex,
    extension: &Extension,
) -> Result<List<Bound>, Memory>
    requires mission { IsMission mission.now }
    requires some { 1 ≤ index.now.horizons }
    requires room { length extension.now.tokens + 1 ≤ length index.now.points }
    requires small { length index.now.points < 2 ^ 32 }
    requires times { All (λ t. pos 0 ≤ℤ t.at) extension.now.fixed }
    requires since { InRange whole extension.now.since }
    ensures { (es : List Extension) → index.now ≡ contents_of (es ++ extension.now ∷ []) → IfOk result (λ made. made ≡ new_bounds mission.now es extension.now) }
{
    let mut made = List::new(alloc);
    add_last_extension(alloc, &mut made, mission, index, extension)?;
    Ok(made)
}

/// Takes an extension into the index, and adds its bounds.
fn add_next(
    alloc: Global,
    made: &mut List<Bound>,
    mission: &Mission,
    index: &mut PlanIndex,
    extension: &Extension,
) -> Result<(), Memory>
    requires mission { IsMission mission.now }
    requires small { length index.old.points + length extension.now.tokens + 1 < 2 ^ 32 }
    requires times { All (λ t. pos 0 ≤ℤ t.at) extension.now.fixed }
    requires since { InRange whole extension.now.since }
    ensures { (es : List Extension) → index.old ≡ contents_of es → OnOk result ((index.new ≡ contents_of (es ++ extension.now ∷ [])) × (made.new ≡ made.old ++ new_bounds mission.now es extension.now)) }
{
    index.extend(extension)?;
    add_last_extension(alloc, made, mission, index, extension)
}

/// The bounds of these extensions.
fn bounds_of_all(
    alloc: Global,
    mission: &Mission,
    extensions: &[Extension],
) -> Result<List<Bound>, Memory>
    requires small { count extensions.now < 2 ^ 32 }
    requires mission { IsMission mission.now }
    requires within { IsWithin mission.now extensions.now }
    ensures { IfOk result (λ made. made ≡ bounds_of mission.now extensions.now) }
{
    let mut index = PlanIndex::new(alloc)?;
    let mut made = List::new(alloc);
    for extension in extensions {
        add_next(alloc, &mut made, mission, &mut index, extension)?;
    }
    Ok(made)
}

/// The bounds of a plan, extension by extension: the horizon, the range of each point, the lengths
/// of tokens, their starts before the horizon, the ends of the timelines after it, supports, goals,
/// fixed points, and `since` for the other points.
pub fn bounds(alloc: Global, mission: &Mission, plan: &Plan) -> Result<List<Bound>, Memory>
    requires small { count plan.now.extensions < 2 ^ 32 }
    requires mission { IsMission mission.now }
    requires within { IsWithin mission.now plan.now.extensions }
    ensures { IfOk result (λ made. made ≡ bounds_of mission.now plan.now.extensions) }
{
    bounds_of_all(alloc, mission, plan.extensions.as_slice())
}
