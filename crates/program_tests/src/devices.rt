use commands::{Outcome, Status, sim};
use device_script::Told;
use hs_base::{List, Memory, VARIABLES};
use hs_port::{Answer, Device, MemDevice};
use std::alloc::Global;
use std::test::Fail;

/// A mission whose device ends its first token, and what it is told to say.
const ON_TIME: &[u8] =
    b"hsts 1 var a value p [2,4] by device then q answers 3 done value q [1,inf] begin p horizon 10 end";

const REPORTED: &[u8] =
    b"hsts log 1\nhandover 1 at 0 groups 3 edges 4\nsince 0\ntoken a p\ntoken a q\nclose\nreport a 0 at 3\nhorizon 1 at 10\nstop ended at 10\ndone\n";

/// The device says its word too early.
const TOO_EARLY: &[u8] =
    b"hsts 1 var a value p [2,4] by device then q answers 1 done value q [1,inf] begin p horizon 10 end";

const EARLY: &[u8] =
    b"hsts log 1\nhandover 1 at 0 groups 3 edges 4\nsince 0\ntoken a p\ntoken a q\nclose\nearly a 0 to Z most -2 at 1\nstop failed at 1\nwhy a 0 to Z most -2\nfailed\n";

/// The device says nothing, and two bounds of the plan force the one that is broken by that.
const SILENT: &[u8] =
    b"hsts 1 var a value p [2,9] by device then q value q [2,3] by device then r value r [1,inf] begin p horizon 10 goal a.r start [0,5] end";

const LATE: &[u8] =
    b"hsts log 1\nhandover 1 at 0 groups 4 edges 6\nsince 0\ntoken a p\ntoken a q\ntoken a r\ngoal 0 a 2\nclose\nlate Z to a 0 most 3 at 3\nstop failed at 3\nwhy Z to a 1 most 5\nwhy a 1 to a 0 most -2\nfailed\n";

/// The device has its word ready as the token begins, and is first asked a tick later.
const AT_ONCE: &[u8] =
    b"hsts 1 var a value p [1,4] by device then q answers 0 done value q [1,inf] begin p horizon 10 end";

const NEXT_TICK: &[u8] =
    b"hsts log 1\nhandover 1 at 0 groups 3 edges 4\nsince 0\ntoken a p\ntoken a q\nclose\nreport a 0 at 1\nhorizon 1 at 10\nstop ended at 10\ndone\n";

/// Two scripts of one device in a row.
const IN_A_ROW: &[u8] =
    b"hsts 1 var a value p [1,3] by device then q answers 2 done value q [1,3] by device then r answers 1 done value r [1,inf] begin p horizon 10 end";

const BOTH: &[u8] =
    b"hsts log 1\nhandover 1 at 0 groups 4 edges 6\nsince 0\ntoken a p\ntoken a q\ntoken a r\nclose\nreport a 0 at 2\nreport a 1 at 3\nhorizon 1 at 10\nstop ended at 10\ndone\n";

/// A camera shoots a comet while the spacecraft looks at it.
const CAMERA: &[u8] =
    b"hsts 1 var camera value idle [1,inf] then shoot value shoot [3,5] by device then idle answers 4 done begin idle var attitude value earth [1,inf] then turn value turn [10,12] by device then comet answers 11 done value comet [1,inf] begin earth need camera.shoot contained_by [0,inf] [0,inf] attitude.comet horizon 100 goal camera.shoot start [20,40] end";

const SHOT: &[u8] =
    b"hsts log 1\nhandover 1 at 0 groups 7 edges 14\nsince 0\ntoken camera idle\ntoken camera shoot\ntoken camera idle\ntoken attitude earth\ntoken attitude turn\ntoken attitude comet\nsupport camera 1 0 attitude 2\ngoal 0 camera 1\nclose\nfire attitude 0 at 1\nreport attitude 1 at 12\nfire camera 0 at 20\nreport camera 1 at 24\nhorizon 1 at 100\nstop ended at 100\ndone\n";

/// The device fails as it is told that its token begins, or at its first poll.
const UNTOLD: &[u8] =
    b"hsts log 1\nhandover 1 at 0 groups 3 edges 4\nsince 0\ntoken a p\ntoken a q\nclose\nbroken a at 0\nstop failed at 0\ndevice fault\n";

const UNASKED: &[u8] =
    b"hsts log 1\nhandover 1 at 0 groups 3 edges 4\nsince 0\ntoken a p\ntoken a q\nclose\nbroken a at 1\nstop failed at 1\ndevice fault\n";

const BUDGET: u64 = 1_000;

/// Whether the outcome has this status and this text.
fn says(outcome: Outcome, status: Status, text: &[u8]) -> bool {
    outcome.status == status && outcome.text.as_bytes() == text
}

/// Whether a run with these sixteen devices is told so.
fn is_run<D: Device>(
    alloc: Global,
    text: &[u8],
    devices: &mut [D],
    status: Status,
    told: &[u8],
) -> Result<bool, Memory> {
    if devices.len() != 16 {
        return Ok(false);
    }
    Ok(says(sim(alloc, text, BUDGET, devices)?, status, told))
}

/// Whether a run with the simulated devices is told so.
fn runs(alloc: Global, text: &[u8], status: Status, told: &[u8]) -> Result<bool, Memory> {
    let mut devices = Vec::new(alloc);
    for _ in 0..VARIABLES {
        devices.push(Told::new())?;
    }
    is_run(alloc, text, devices.as_mut_slice(), status, told)
}

#[test]
fn reports_end_tokens(rt: HostRuntime) -> Result<(), Fail> {
    let alloc = rt.alloc();
    assert!(rt; runs(alloc, ON_TIME, Status::Done, REPORTED)?);
    assert!(rt; runs(alloc, AT_ONCE, Status::Done, NEXT_TICK)?);
    assert!(rt; runs(alloc, IN_A_ROW, Status::Done, BOTH)?);
    Ok(())
}

#[test]
fn a_camera_shoots_a_comet(rt: HostRuntime) -> Result<(), Fail> {
    assert!(rt; runs(rt.alloc(), CAMERA, Status::Done, SHOT)?);
    Ok(())
}

#[test]
fn failed_runs_are_told_why(rt: HostRuntime) -> Result<(), Fail> {
    let alloc = rt.alloc();
    assert!(rt; runs(alloc, TOO_EARLY, Status::PlanFailed, EARLY)?);
    assert!(rt; runs(alloc, SILENT, Status::PlanFailed, LATE)?);
    Ok(())
}

/// A device with room for four polls, whose call of that number fails.
fn failing(alloc: Global, call: u64) -> Result<MemDevice, Memory> {
    let fail = List::from_vec([call].to_vec(alloc)?);
    MemDevice::begin(alloc, 4, List::new(alloc), fail)
}

/// Whether a run whose devices fail at that call is told so.
fn breaks(alloc: Global, call: u64, told: &[u8]) -> Result<bool, Memory> {
    let mut devices = Vec::new(alloc);
    for _ in 0..VARIABLES {
        devices.push(failing(alloc, call)?)?;
    }
    let devices = devices.as_mut_slice();
    is_run(alloc, ON_TIME, devices, Status::DeviceFault, told)
}

#[test]
fn failing_devices_end_a_run(rt: HostRuntime) -> Result<(), Fail> {
    let alloc = rt.alloc();
    assert!(rt; breaks(alloc, 0, UNTOLD)?);
    assert!(rt; breaks(alloc, 1, UNASKED)?);
    Ok(())
}
