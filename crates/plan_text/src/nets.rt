ghost use Rattle.std.specs.Prelude.{◌≡◌, ◌++◌, ◌^◌, ◌<◌, IfOk, OnOk, flat_map};
ghost use Rattle.hs_base.specs.Points.{count};
ghost use Rattle.hs_texts.specs.NetText.{counts_text, member_line, group_lines, edge_line, net_text};

use crate::parts::{push_number, push_point, push_signed};
use hs_base::{Bound, Group, Member, Memory, Mission, Net, Plan};
use hs_texts::Text;
use plan_index::PlanIndex;
use std::alloc::Global;

/// Puts the numbers of groups and edges at the end, as `groups 7 edges 14`.
pub fn push_counts(text: &mut Text, net: &Net) -> Result<(), Memory>
    ensures { OnOk result (text.new ≡ text.old ++ counts_text net.now) }
{
    text.push_bytes(b"groups ")?;
    push_number(text, net.groups.len() as u64)?;
    text.push_bytes(b" edges ")?;
    push_number(text, net.edges.len() as u64)
}

fn push_member(
    text: &mut Text,
    mission: &Mission,
    index: &PlanIndex,
    member: &Member,
) -> Result<(), Memory>
    ensures { OnOk result (text.new ≡ text.old ++ member_line mission.now index.now.points member.now) }
{
    text.push_bytes(b"member ")?;
    push_point(text, mission, index, member.point)?;
    text.push_bytes(b" ")?;
    push_signed(text, member.offset)?;
    text.push_bytes(b"\n")
}

fn push_group(
    text: &mut Text,
    mission: &Mission,
    index: &PlanIndex,
    group: &Group,
) -> Result<(), Memory>
    ensures { OnOk result (text.new ≡ text.old ++ group_lines mission.now index.now.points group.now) }
{
    text.push_bytes(b"group ")?;
    push_point(text, mission, index, group.leader)?;
    text.push_bytes(b"\n")?;
    for member in group.members.as_slice() {
        push_member(text, mission, index, member)?;
    }
    Ok(())
}

fn push_groups(
    text: &mut Text,
    mission: &Mission,
    index: &PlanIndex,
    groups: &[Group],
) -> Result<(), Memory>
    ensures { OnOk result (text.new ≡ text.old ++ flat_map (group_lines mission.now index.now.points) groups.now) }
{
    for group in groups {
        push_group(text, mission, index, group)?;
    }
    Ok(())
}

fn push_edge(
    text: &mut Text,
    mission: &Mission,
    index: &PlanIndex,
    edge: &Bound,
) -> Result<(), Memory>
    ensures { OnOk result (text.new ≡ text.old ++ edge_line mission.now index.now.points edge.now) }
{
    text.push_bytes(b"edge ")?;
    push_point(text, mission, index, edge.from)?;
    text.push_bytes(b" ")?;
    push_point(text, mission, index, edge.to)?;
    text.push_bytes(b" ")?;
    push_signed(text, edge.most)?;
    text.push_bytes(b"\n")
}

fn push_edges(
    text: &mut Text,
    mission: &Mission,
    index: &PlanIndex,
    edges: &[Bound],
) -> Result<(), Memory>
    ensures { OnOk result (text.new ≡ text.old ++ flat_map (edge_line mission.now index.now.points) edges.now) }
{
    for edge in edges {
        push_edge(text, mission, index, edge)?;
    }
    Ok(())
}

/// The text of the network of a plan.
pub fn write_net(alloc: Global, mission: &Mission, plan: &Plan, net: &Net) -> Result<Text, Memory>
    requires { count plan.now.extensions < 2 ^ 32 }
    ensures { IfOk result (λ text. text ≡ net_text mission.now plan.now.extensions net.now) }
{
    let mut text = Text::new(alloc);
    let index = PlanIndex::of(alloc, plan.extensions.as_slice())?;
    text.push_bytes(b"hsts net 1\n")?;
    push_counts(&mut text, net)?;
    text.push_bytes(b"\n")?;
    push_groups(&mut text, mission, &index, net.groups.as_slice())?;
    push_edges(&mut text, mission, &index, net.edges.as_slice())?;
    text.push_bytes(b"end\n")?;
    Ok(text)
}
