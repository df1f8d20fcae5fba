ghost use Rattle.std.specs.Prelude.{◌≡◌, IfOk};
ghost use Rattle.hs_base.specs.Schedule.{bound as bound_of};
ghost use Rattle.net_tests.specs.Samples.{chain, chain_edges, chain_groups};

use hs_base::{Bound, Group, List, Member, Memory, Net, PointId};
use std::alloc::Global;

pub(crate) fn bound(from: u32, to: u32, most: i64) -> Bound
    ensures { result ≡ bound_of from to most }
{
    Bound {
        from: PointId(from),
        to: PointId(to),
        most,
    }
}

fn edges(alloc: Global) -> Result<List<Bound>, Memory>
    ensures { IfOk result (λ edges. edges ≡ chain_edges) }
{
    let edges = [
        bound(0, 1, 5),
        bound(1, 0, -1),
        bound(1, 2, 3),
        bound(2, 1, -2),
    ];
    Ok(List::from_vec(Vec::from_slice(alloc, &edges)?))
}

fn groups(alloc: Global) -> Result<List<Group>, Memory>
    ensures { IfOk result (λ groups. groups ≡ chain_groups) }
{
    let mut members = List::new(alloc);
    members.push(Member {
        point: PointId(3),
        offset: 0,
    })?;
    let mut groups = List::new(alloc);
    groups.push(Group {
        leader: PointId(0),
        members: List::new(alloc),
    })?;
    groups.push(Group {
        leader: PointId(1),
        members: List::new(alloc),
    })?;
    groups.push(Group {
        leader: PointId(2),
        members,
    })?;
    Ok(groups)
}

/// The small network: point 1 stands 1 to 5 after Z, and points 2 and 3 together 2 to 3 after it.
pub(crate) fn net(alloc: Global) -> Result<Net, Memory>
    ensures { IfOk result (λ n. n ≡ chain) }
{
    Ok(Net {
        groups: groups(alloc)?,
        edges: edges(alloc)?,
    })
}
