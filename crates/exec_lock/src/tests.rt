use super::*;
use hs_base::{List, Mission, PointId};
use hs_machine::{Core, Deed, Entry};
use std::sync::Wait;
use std::test::Fail;
use std::thread::{Threads, join_mut};

/// A core that notes each number that it is given.
#[derive(Drop)]
struct Tally {
    mission: Mission,
    history: Vec<Entry>,
}

impl Core for Tally {
    type Event = u32;

    type Reply = bool;

    ghost use Rattle.std.specs.Prelude.{◌≡◌, ◌∷◌, [], ◌++◌, MatchBool};
    ghost use Rattle.hs_machine.specs.declared.history.Deed.TheVariants.{Fire};

    ghost opening = { λ t. t.mission };

    ghost history = { λ t. t.history.items };

    // The number is noted, or there was no memory.
    ghost turn = { λ m before by n reply after. MatchBool reply
        (after ≡ before ++ record { by = by; deed = Fire (record { 0 = n }) } ∷ [])
        (after ≡ before) };

    fn apply(&mut self, by: u32, event: u32) -> bool {
        let entry = Entry {
            by,
            deed: Deed::Fire(PointId(event)),
        };
        self.history.push(entry).is_ok()
    }

    fn front(&self) -> u64 {
        self.history.len() as u64
    }
}

ghost use Rattle.std.specs.Prelude.{◌≡◌, ◌<◌};
ghost use Rattle.exec_lock.specs.Shares.{which};

/// A core with no entry.
fn no_entry(rt: &HostRuntime) -> Tally {
    let mission = Mission {
        vars: List::new(rt.alloc()),
        needs: List::new(rt.alloc()),
        horizons: List::new(rt.alloc()),
        words: List::new(rt.alloc()),
    };
    Tally {
        mission,
        history: Vec::new(rt.alloc()),
    }
}

/// Notes the numbers from 0 on.
fn note_all<R: Wait>(rt: &R, shared: &Shared<Tally>, pass: &mut Pass, count: u32)
    requires { pass.old.shared ≡ which shared.now }
    ensures { pass.new.shared ≡ pass.old.shared }
{
    for n in 0..count {
        shared.call(rt, pass, n);
    }
}

/// Two threads note as many numbers each, by passes of their own.
fn note_twice<R: Threads + Wait + Sync>(rt: &R, shared: &Shared<Tally>, pass: &mut Pass, count: u32)
    requires own { pass.old.shared ≡ which shared.now }
    requires many { 1 < pass.old.view.count }
    ensures { pass.new.shared ≡ pass.old.shared }
{
    let mut other = shared.split(pass, 1);
    join_mut(
        rt,
        &mut || note_all(rt, shared, pass, count),
        &mut || note_all(rt, shared, &mut other, count),
    );
    shared.join(pass, other);
}

/// How many entries have this number, where their points are 0, 1, 2 and so on.
fn rising(tally: &Tally, by: u32) -> Option<u32> {
    let mut next = 0u32;
    for entry in tally.history.as_slice() {
        if entry.by == by {
            if entry.deed != Deed::Fire(PointId(next)) {
                return None;
            }
            next = next.checked_add(1)?;
        }
    }
    Some(next)
}

#[test]
fn two_threads_share_a_core(rt: HostRuntime) -> Result<(), Fail> {
    let Ok((shared, mut pass)) = Shared::begin(rt.alloc(), no_entry(&rt)) else {
        panic!(rt; "no memory")
    };
    assert_eq!(rt; pass.numbers(), u32::MAX);
    note_twice(&rt, &shared, &mut pass, 1000);
    assert_eq!(rt; pass.numbers(), u32::MAX - 1);
    let Ok(tally) = shared.close(pass) else {
        panic!(rt; "a number is away")
    };
    assert_eq!(rt; tally.history.len(), 2000);
    assert_eq!(rt; rising(&tally, 0), Some(1000));
    assert_eq!(rt; rising(&tally, u32::MAX - 1), Some(1000));
    Ok(())
}

#[test]
fn a_number_away_is_told(rt: HostRuntime) -> Result<(), Fail> {
    let Ok((shared, mut pass)) = Shared::begin(rt.alloc(), no_entry(&rt)) else {
        panic!(rt; "no memory")
    };
    let _other = shared.split(&mut pass, 1);
    let Err(left) = shared.close(pass) else {
        panic!(rt; "no number is away")
    };
    assert_eq!(rt; left, Left { away: 1 });
    Ok(())
}

#[test]
fn passes_that_meet_have_seen_as_much(rt: HostRuntime) -> Result<(), Fail> {
    let Ok((shared, mut pass)) = Shared::begin(rt.alloc(), no_entry(&rt)) else {
        panic!(rt; "no memory")
    };
    let mut other = shared.split(&mut pass, 2);
    assert_eq!(rt; shared.call(&rt, &mut pass, 7), (true, Front(1)));
    shared.meet(&mut other, &mut pass);
    assert_eq!(rt; shared.call(&rt, &mut other, 8), (true, Front(2)));
    assert_eq!(rt; (pass.numbers(), other.numbers()), (u32::MAX - 2, 2));
    shared.join(&mut pass, other);
    let Ok(tally) = shared.close(pass) else {
        panic!(rt; "a number is away")
    };
    assert_eq!(rt; tally.history.len(), 2);
    Ok(())
}
