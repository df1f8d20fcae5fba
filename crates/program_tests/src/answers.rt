use commands::{Outcome, Status, check, net, plan, print, sim};
use device_script::Told;
use hs_base::{Memory, VARIABLES};
use std::alloc::{AllocError, Global};
use std::test::Fail;

/// The smallest mission, and its canonical text.
const SMALLEST: &[u8] = b"hsts 1 var a value p [2,4] then q value q [1,inf] begin p horizon 10 end";

const PRINTED: &[u8] =
    b"hsts 1\nvar a\nvalue p [2,4] then q\nvalue q [1,inf]\nbegin p\nhorizon 10\nend\n";

/// The smallest mission with its plan, and the log of its flight.
const PLANNED: &[u8] =
    b"hsts 1 var a value p [2,4] then q value q [1,inf] begin p horizon 10 end hsts plan 1 extension 1 since 0 token a p token a q close end";

const LOG: &[u8] =
    b"hsts log 1\nhandover 1 at 0 groups 3 edges 4\nsince 0\ntoken a p\ntoken a q\nclose\nfire a 0 at 2\nhorizon 1 at 10\nstop ended at 10\ndone\n";

/// The smallest mission with other plans.
const WRONG_ORDER: &[u8] =
    b"hsts 1 var a value p [2,4] then q value q [1,inf] begin p horizon 10 end hsts plan 1 extension 1 since 0 token a q close end";

const TOO_SHORT: &[u8] =
    b"hsts 1 var a value p [2,4] then q value q [1,inf] begin p horizon 10 end hsts plan 1 extension 1 since 0 token a p close end";

const UNKNOWN: &[u8] =
    b"hsts 1 var a value p [2,4] then q value q [1,inf] begin p horizon 10 end hsts plan 1 extension 1 since 0 token a r close end";

const TWO: &[u8] =
    b"hsts 1 var a value p [2,4] then q value q [1,inf] begin p horizon 10 end hsts plan 1 extension 1 since 0 token a p token a q close extension 2 since 0 close end";

/// A mission of two horizons.
const TWO_HORIZONS: &[u8] = b"hsts 1 var a value p [1,inf] begin p horizon 10 horizon 20 end";

/// One whose limits are exchanged.
const EXCHANGED: &[u8] = b"hsts 1 var a value p [4,2] begin p horizon 10 end";

const BROKEN_OFF: &[u8] = b"hsts 1 var";

const PLAN: &[u8] = b"hsts plan 1\nextension 1\nsince 0\ntoken a p\ntoken a q\nclose\nend\n";

const NET: &[u8] =
    b"hsts net 1\ngroups 3 edges 4\ngroup Z\nmember H 1 10\ngroup a 0\ngroup a 1\nedge Z a 0 4\nedge Z a 1 1000000000\nedge a 0 Z -2\nedge a 1 Z -11\nend\n";

/// A mission whose only token is too short for the horizon.
const UNPLANNABLE: &[u8] = b"hsts 1 var a value p [2,4] begin p horizon 10 end";

const BUDGET: u64 = 100;

/// A row of tokens of two ticks each, which reaches the horizon with 128 of them.
const ROW: &[u8] =
    b"hsts 1 var a value p [2,2] then q value q [2,2] then p begin p horizon 255 end";

/// One that would need a token more than a plan may have.
const LONGER_ROW: &[u8] =
    b"hsts 1 var a value p [2,2] then q value q [2,2] then p begin p horizon 257 end";

/// Whether the outcome has this status and this text.
fn says(outcome: Result<Outcome, Memory>, status: Status, text: &[u8]) -> bool {
    match outcome {
        Ok(outcome) => outcome.status == status && outcome.text.as_bytes() == text,
        Err(Memory) => false,
    }
}

/// The outcome of `sim` with sixteen devices that say nothing.
fn fly(alloc: Global, text: &[u8]) -> Result<Outcome, Memory> {
    let mut devices = Vec::new(alloc);
    for _ in 0..VARIABLES {
        devices.push(Told::new())?;
    }
    if devices.len() != 16 {
        return Err(Memory);
    }
    sim(alloc, text, BUDGET, devices.as_mut_slice())
}

#[test]
fn prints_missions(rt: HostRuntime) -> Result<(), Fail> {
    let alloc = rt.alloc();
    let behind = b"refused 5 at 73\n";
    let range = b"refused 8 range 0\n";
    assert!(rt; says(print(alloc, SMALLEST), Status::Done, PRINTED));
    assert!(rt; says(print(alloc, PLANNED), Status::Refused, behind));
    assert!(rt; says(print(alloc, EXCHANGED), Status::Refused, range));
    Ok(())
}

#[test]
fn checks_plans(rt: HostRuntime) -> Result<(), Fail> {
    let alloc = rt.alloc();
    assert!(rt; says(check(alloc, PLANNED), Status::Done, b"ok 1\n"));
    let order = b"extension 1 fault 2 order a 0\n";
    assert!(rt; says(check(alloc, WRONG_ORDER), Status::PlanRefused, order));
    let base = b"extension 2 fault 1 base 1 1\n";
    assert!(rt; says(check(alloc, TWO), Status::PlanRefused, base));
    Ok(())
}

#[test]
fn refuses_to_check(rt: HostRuntime) -> Result<(), Fail> {
    let alloc = rt.alloc();
    let end = b"refused 3 at 72\n";
    let unknown = b"refused 7 unknown r\n";
    assert!(rt; says(check(alloc, SMALLEST), Status::Refused, end));
    assert!(rt; says(check(alloc, UNKNOWN), Status::Refused, unknown));
    Ok(())
}

/// Whether the outcome is a cycle, of which the bounds are told.
fn is_cycle(outcome: Result<Outcome, Memory>) -> bool {
    match outcome {
        Ok(outcome) => {
            outcome.status == Status::PlanRefused
                && outcome
                    .text
                    .as_bytes()
                    .starts_with(b"extension 1 fault 7 cycle\n")
        }
        Err(Memory) => false,
    }
}

#[test]
fn names_the_bounds_of_a_cycle(rt: HostRuntime) -> Result<(), Fail> {
    assert!(rt; is_cycle(check(rt.alloc(), TOO_SHORT)));
    Ok(())
}

#[test]
fn flies_plain_missions(rt: HostRuntime) -> Result<(), Fail> {
    let alloc = rt.alloc();
    let none = b"hsts log 1\nstop waiting at 0\nno plan after 0\n";
    assert!(rt; says(fly(alloc, PLANNED), Status::Done, LOG));
    assert!(rt; says(fly(alloc, SMALLEST), Status::Done, LOG));
    assert!(rt; says(fly(alloc, UNPLANNABLE), Status::NoPlan, none));
    Ok(())
}

#[test]
fn refuses_to_fly(rt: HostRuntime) -> Result<(), Fail> {
    let alloc = rt.alloc();
    assert!(rt; says(fly(alloc, TWO_HORIZONS), Status::Refused, b"refused 0\n"));
    let off = b"refused 3 at 10\n";
    assert!(rt; says(fly(alloc, BROKEN_OFF), Status::Refused, off));
    let base = b"extension 2 fault 1 base 2 0\n";
    assert!(rt; says(fly(alloc, TWO), Status::PlanRefused, base));
    Ok(())
}

#[test]
fn plans_missions(rt: HostRuntime) -> Result<(), Fail> {
    let alloc = rt.alloc();
    let budget = b"budget after 0 path 0\n";
    let none = b"no plan after 0\n";
    assert!(rt; says(plan(alloc, SMALLEST, BUDGET), Status::Done, PLAN));
    assert!(rt; says(plan(alloc, SMALLEST, 1), Status::Budget, budget));
    assert!(rt; says(plan(alloc, UNPLANNABLE, BUDGET), Status::NoPlan, none));
    assert!(rt; says(net(alloc, SMALLEST, BUDGET), Status::Done, NET));
    Ok(())
}

/// A text with a part that is repeated.
fn repeated(
    alloc: Global,
    front: &[u8],
    part: &[u8],
    times: usize,
    rest: &[u8],
) -> Result<Vec<u8>, AllocError> {
    let mut text = front.to_vec(alloc)?;
    for _ in 0..times {
        text.extend_from_slice(part)?;
    }
    text.extend_from_slice(rest)?;
    Ok(text)
}

/// The plan of that row.
fn row(alloc: Global) -> Result<Vec<u8>, AllocError> {
    let head = b"hsts plan 1\nextension 1\nsince 0\n";
    repeated(alloc, head, b"token a p\ntoken a q\n", 64, b"close\nend\n")
}

/// The path at which so many nodes end a search for it.
fn path(alloc: Global) -> Result<Vec<u8>, AllocError> {
    repeated(alloc, b"budget after 0 path", b" 1", 127, b" 0\n")
}

#[test]
fn takes_256_nodes_for_128_tokens(rt: HostRuntime) -> Result<(), Fail> {
    let alloc = rt.alloc();
    let row = row(alloc)?;
    let path = path(alloc)?;
    let none = b"no plan after 0\n";
    assert!(rt; says(plan(alloc, ROW, 255), Status::Budget, path.as_slice()));
    assert!(rt; says(plan(alloc, ROW, 256), Status::Done, row.as_slice()));
    assert!(rt;
        says(
            plan(alloc, LONGER_ROW, 255),
            Status::Budget,
            path.as_slice()
        )
    );
    assert!(rt; says(plan(alloc, LONGER_ROW, 256), Status::NoPlan, none));
    Ok(())
}
