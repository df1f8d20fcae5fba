ghost use Rattle.std.specs.Prelude.{◌≡◌, ◌^◌, ◌<◌, length, IfOk};
ghost use Rattle.base_laws.specs.Samples.{camera_plan};
ghost use Rattle.hs_base.specs.Points.{count};

use ddl_read::Pieces;
use hs_base::{
    Bound, Extension, Group, Kind, LAST, List, Member, Memory, Mission, Name, Net, Plan, PointId,
    Same, SvId, Time, TokenRef, ValId,
};
use hs_texts::{Refusal, Text};
use plan_text::{point_text, read, write, write_net};
use sample_missions::{camera, camera_extension};
use std::alloc::Global;
use std::test::Fail;

/// The plan of the camera mission.
fn camera_plan(alloc: Global) -> Result<Plan, Memory>
    ensures { IfOk result (λ plan. plan.extensions ≡ camera_plan) }
{
    let mut extensions = List::new(alloc);
    extensions.push(camera_extension(alloc)?)?;
    Ok(Plan { extensions })
}

fn times(alloc: Global) -> Result<List<Time>, Memory> {
    let times = [Time {
        point: PointId(2),
        at: 20,
    }];
    Ok(List::from_vec(Vec::from_slice(alloc, &times)?))
}

fn kind(sv: u32, value: u32) -> Kind {
    Kind {
        sv: SvId(sv),
        value: ValId(value),
    }
}

fn kinds(alloc: Global) -> Result<List<Kind>, Memory>
    ensures { IfOk result (λ kinds. length kinds ≡ 2) }
{
    let kinds = [kind(0, 0), kind(1, 1)];
    Ok(List::from_vec(Vec::from_slice(alloc, &kinds)?))
}

fn goals(alloc: Global) -> Result<List<TokenRef>, Memory> {
    let goals = [TokenRef {
        sv: SvId(1),
        place: 3,
    }];
    Ok(List::from_vec(Vec::from_slice(alloc, &goals)?))
}

/// An extension that fixes the end of the first token.
fn later(alloc: Global) -> Result<Extension, Memory>
    ensures { IfOk result (λ e. length e.tokens ≡ 2) }
{
    Ok(Extension {
        base: 1,
        since: 20,
        fixed: times(alloc)?,
        tokens: kinds(alloc)?,
        supports: List::new(alloc),
        goals: goals(alloc)?,
    })
}

/// The camera mission's plan with that extension.
fn later_plan(alloc: Global) -> Result<Plan, Memory>
    ensures { IfOk result (λ plan. count plan.extensions < 2 ^ 32) }
{
    let mut plan = camera_plan(alloc)?;
    plan.extensions.push(later(alloc)?)?;
    Ok(plan)
}

/// Whether the plan is written so, and read back.
fn is_spelled(alloc: Global, mission: &Mission, plan: &Plan, lines: &[u8]) -> Result<bool, Refusal>
    requires { count plan.now.extensions < 2 ^ 32 }
{
    let text = write(alloc, mission, plan)?;
    let pieces = Pieces::cut(alloc, text.as_bytes())?;
    let again = read(alloc, mission, &pieces, 0)?;
    Ok(text.as_bytes() == lines && again.same(plan))
}

#[test]
fn spells_the_plan_of_the_camera_mission(rt: HostRuntime) -> Result<(), Fail> {
    let mission = camera(rt.alloc())?;
    let plan = camera_plan(rt.alloc())?;
    let lines =
        b"hsts plan 1\nextension 1\nsince 0\ntoken camera idle\ntoken camera shoot\ntoken camera idle\ntoken attitude earth\ntoken attitude turn\ntoken attitude comet\nsupport camera 1 0 attitude 2\ngoal 0 camera 1\nclose\nend\n";
    assert!(rt; is_spelled(rt.alloc(), &mission, &plan, lines)?);
    Ok(())
}

#[test]
fn counts_places_through_extensions(rt: HostRuntime) -> Result<(), Fail> {
    let mission = camera(rt.alloc())?;
    let plan = later_plan(rt.alloc())?;
    let lines =
        b"hsts plan 1\nextension 1\nsince 0\ntoken camera idle\ntoken camera shoot\ntoken camera idle\ntoken attitude earth\ntoken attitude turn\ntoken attitude comet\nsupport camera 1 0 attitude 2\ngoal 0 camera 1\nclose\nextension 2\nsince 20\nfix camera 0 20\ntoken camera idle\ntoken attitude turn\ngoal 0 attitude 3\nclose\nend\n";
    assert!(rt; is_spelled(rt.alloc(), &mission, &plan, lines)?);
    Ok(())
}

/// Whether the point is spelled so.
fn is_name(
    alloc: Global,
    mission: &Mission,
    plan: &Plan,
    point: u32,
    name: &str,
) -> Result<bool, Memory>
    requires { count plan.now.extensions < 2 ^ 32 }
{
    let text = point_text(alloc, mission, plan, PointId(point))?;
    Ok(text.as_bytes() == name.as_bytes())
}

#[test]
fn names_points(rt: HostRuntime) -> Result<(), Fail> {
    let mission = camera(rt.alloc())?;
    let plan = later_plan(rt.alloc())?;
    for (point, name) in [
        (0u32, "Z"),
        (1, "H 1"),
        (5, "attitude 0"),
        (8, "H 2"),
        (9, "camera 3"),
        (10, "attitude 3"),
        (11, ""),
    ] {
        assert!(rt;
            is_name(rt.alloc(), &mission, &plan, point, name)?,
            "point {point}"
        );
    }
    Ok(())
}

fn group(alloc: Global, leader: u32) -> Group {
    Group {
        leader: PointId(leader),
        members: List::new(alloc),
    }
}

/// The group of Z, with the first horizon.
fn first_group(alloc: Global) -> Result<Group, Memory> {
    let mut group = group(alloc, 0);
    group.members.push(Member {
        point: PointId(1),
        offset: 100,
    })?;
    Ok(group)
}

fn groups(alloc: Global) -> Result<List<Group>, Memory> {
    let mut groups = List::new(alloc);
    groups.push(first_group(alloc)?)?;
    for leader in 2..8 {
        groups.push(group(alloc, leader))?;
    }
    Ok(groups)
}

fn edges(alloc: Global) -> Result<List<Bound>, Memory> {
    let mut edges = List::new(alloc);
    for (from, to, most) in [
        (0u32, 2u32, 40i64),
        (0, 4, LAST),
        (0, 5, 30),
        (0, 7, LAST),
        (2, 0, -20),
        (2, 3, 5),
        (2, 5, -10),
        (2, 6, 0),
        (3, 2, -3),
        (4, 0, -101),
        (5, 0, -1),
        (5, 6, 12),
        (6, 5, -10),
        (7, 0, -101),
    ] {
        edges.push(Bound {
            from: PointId(from),
            to: PointId(to),
            most,
        })?;
    }
    Ok(edges)
}

/// The text of the network of the camera mission's plan.
fn net_text(alloc: Global) -> Result<Text, Memory> {
    let net = Net {
        groups: groups(alloc)?,
        edges: edges(alloc)?,
    };
    write_net(alloc, &camera(alloc)?, &camera_plan(alloc)?, &net)
}

#[test]
fn writes_the_network_of_the_camera_mission(rt: HostRuntime) -> Result<(), Fail> {
    let text = net_text(rt.alloc())?;
    let lines =
        b"hsts net 1\ngroups 7 edges 14\ngroup Z\nmember H 1 100\ngroup camera 0\ngroup camera 1\ngroup camera 2\ngroup attitude 0\ngroup attitude 1\ngroup attitude 2\nedge Z camera 0 40\nedge Z camera 2 1000000000\nedge Z attitude 0 30\nedge Z attitude 2 1000000000\nedge camera 0 Z -20\nedge camera 0 camera 1 5\nedge camera 0 attitude 0 -10\nedge camera 0 attitude 1 0\nedge camera 1 camera 0 -3\nedge camera 2 Z -101\nedge attitude 0 Z -1\nedge attitude 0 attitude 1 12\nedge attitude 1 attitude 0 -10\nedge attitude 2 Z -101\nend\n";
    assert!(rt; text.as_bytes() == lines.as_slice());
    Ok(())
}

/// Whether the text is refused as a plan of the camera mission so.
fn is_refused(alloc: Global, mission: &Mission, text: &str, refusal: &Refusal) -> bool {
    match Pieces::cut(alloc, text.as_bytes()) {
        Ok(pieces) => read(alloc, mission, &pieces, 0).err().as_ref() == Some(refusal),
        Err(_) => false,
    }
}

/// Whether it is refused at that place, where something else was expected.
fn is_refused_at(alloc: Global, mission: &Mission, text: &str, at: u32) -> bool {
    is_refused(alloc, mission, text, &Refusal::Expected { at })
}

#[test]
fn refuses_at_the_first_piece(rt: HostRuntime) -> Result<(), Fail> {
    let alloc = rt.alloc();
    let mission = camera(alloc)?;
    let origin = "hsts plan 1 extension 1 since 0 fix Z 0 close end";
    assert!(rt; is_refused_at(alloc, &mission, origin, 36));
    let no_time = "hsts plan 1 extension 1 since 0 fix camera close end";
    assert!(rt; is_refused_at(alloc, &mission, no_time, 43));
    let no_point = "hsts plan 1 extension 1 since 0 fix camera 0 3 close end";
    assert!(rt; is_refused_at(alloc, &mission, no_point, 36));
    let no_number = "hsts plan 1 extension 0 since 0 close end";
    assert!(rt; is_refused_at(alloc, &mission, no_number, 22));
    assert!(rt; is_refused_at(alloc, &mission, "hsts plan 2 end", 10));
    let goal = "hsts plan 1 extension 1 since 0 goal 1 camera 0 close end";
    assert!(rt; is_refused_at(alloc, &mission, goal, 37));
    let no_end = "hsts plan 1 extension 1 since 0 token lens idle close";
    assert!(rt; is_refused_at(alloc, &mission, no_end, 53));
    Ok(())
}

#[test]
fn refuses_the_rest_and_unknown_names(rt: HostRuntime) -> Result<(), Fail> {
    let mission = camera(rt.alloc())?;
    let trailing = Refusal::Trailing { at: 16 };
    assert!(rt; is_refused(rt.alloc(), &mission, "hsts plan 1 end end", &trailing));
    let unknown = Refusal::Unknown {
        name: Name::from_bytes(rt.alloc(), b"lens")?,
    };
    let text = "hsts plan 1 extension 1 since 0 token camera lens token lens idle close end";
    assert!(rt; is_refused(rt.alloc(), &mission, text, &unknown));
    Ok(())
}
