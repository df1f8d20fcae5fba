ghost use Rattle.std.specs.Prelude.{◌<◌};

use exec_main::ground;
use hs_base::{List, Memory, VARIABLES};
use hs_port::{MemDevice, MemSink, MemSource};
use std::alloc::Global;
use std::test::Fail;

/// The smallest mission, of durations alone.
const MISSION: &[u8] = b"hsts 1 var a value p [2,4] then q value q [1,inf] begin p horizon 10 end";

const PRINTED: &[u8] =
    b"hsts 1\nvar a\nvalue p [2,4] then q\nvalue q [1,inf]\nbegin p\nhorizon 10\nend\n";

/// The mission with its plan, and the log of its flight.
const PLANNED: &[u8] =
    b"hsts 1 var a value p [2,4] then q value q [1,inf] begin p horizon 10 end hsts plan 1 extension 1 since 0 token a p token a q close end";

const LOG: &[u8] =
    b"hsts log 1\nhandover 1 at 0 groups 3 edges 4\nsince 0\ntoken a p\ntoken a q\nclose\nfire a 0 at 2\nhorizon 1 at 10\nstop ended at 10\ndone\n";

/// The mission with a plan that begins with the wrong value.
const MISBEGUN: &[u8] =
    b"hsts 1 var a value p [2,4] then q value q [1,inf] begin p horizon 10 end hsts plan 1 extension 1 since 0 token a q close end";

/// A mission whose only token is too short for the horizon.
const UNPLANNABLE: &[u8] = b"hsts 1 var a value p [2,4] begin p horizon 10 end";

const USAGE: &[u8] = b"usage: hsts COMMAND [--budget N] [--seed N] [--size N]\n";

/// How the outside behaves: which read and which write fail, counted from 0.
#[derive(Clone, Copy)]
struct Outside {
    read: u64,
    write: u64,
}

/// Nothing fails.
const WELL: Outside = Outside {
    read: 1_000,
    write: 1_000,
};

/// The words of a line, cut at blanks.
fn words(alloc: Global, line: &str) -> Result<Vec<String>, Memory> {
    let mut words = Vec::new(alloc);
    for word in line.split(' ') {
        words.push(String::from_str(alloc, word)?)?;
    }
    Ok(words)
}

fn source(alloc: Global, text: &[u8], outside: Outside) -> Result<MemSource, Memory> {
    let fail = List::from_vec([outside.read].to_vec(alloc)?);
    Ok(MemSource::begin(List::from_vec(text.to_vec(alloc)?), fail))
}

/// Room for the output, of which a write takes so many bytes.
fn sink(alloc: Global, most: u64, outside: Outside) -> Result<MemSink, Memory>
    requires { 0 < most }
{
    let fail = List::from_vec([outside.write].to_vec(alloc)?);
    MemSink::begin(alloc, 1_000, most, fail)
}

fn devices(alloc: Global) -> Result<Vec<MemDevice>, Memory> {
    let mut devices = Vec::new(alloc);
    for _ in 0..VARIABLES {
        let device = MemDevice::begin(alloc, 0, List::new(alloc), List::new(alloc))?;
        devices.push(device)?;
    }
    Ok(devices)
}

/// The status of a run, which has its sixteen devices.
fn status(
    alloc: Global,
    line: &str,
    source: &mut MemSource,
    sink: &mut MemSink,
) -> Result<Option<u8>, Memory> {
    let words = words(alloc, line)?;
    let mut devices = devices(alloc)?;
    if devices.len() != 16 {
        return Ok(None);
    }
    let status = ground(
        alloc,
        words.as_slice(),
        source,
        sink,
        devices.as_mut_slice(),
    );
    Ok(Some(status))
}

/// Whether a run ends with this status and writes this, in writes of so many bytes.
fn writes(
    alloc: Global,
    line: &str,
    text: &[u8],
    most: u64,
    outside: Outside,
    ended: u8,
    output: &[u8],
) -> Result<bool, Memory>
    requires { 0 < most }
{
    let mut source = source(alloc, text, outside)?;
    let mut sink = sink(alloc, most, outside)?;
    let status = status(alloc, line, &mut source, &mut sink)?;
    Ok(status == Some(ended) && sink.taken() == output)
}

/// Whether the flight of the smallest mission ends with this status and writes this.
fn flies(
    alloc: Global,
    most: u64,
    outside: Outside,
    ended: u8,
    output: &[u8],
) -> Result<bool, Memory>
    requires { 0 < most }
{
    writes(alloc, "sim", PLANNED, most, outside, ended, output)
}

#[test]
fn the_smallest_mission_is_flown(rt: HostRuntime) -> Result<(), Fail> {
    let alloc = rt.alloc();
    assert!(rt; flies(alloc, 1, WELL, 0, LOG)?);
    assert!(rt; flies(alloc, 10, WELL, 0, LOG)?);
    assert!(rt; flies(alloc, 1_000, WELL, 0, LOG)?);
    Ok(())
}

/// Whether nothing is written where that read fails.
fn is_unread(alloc: Global, read: u64) -> Result<bool, Memory> {
    flies(alloc, 10, Outside { read, ..WELL }, 6, b"")
}

#[test]
fn a_failing_read_writes_nothing(rt: HostRuntime) -> Result<(), Fail> {
    assert!(rt; is_unread(rt.alloc(), 0)?);
    assert!(rt; is_unread(rt.alloc(), 1)?);
    Ok(())
}

/// Whether that front of the log is left where that write fails.
fn leaves(alloc: Global, write: u64, front: &[u8]) -> Result<bool, Memory> {
    flies(alloc, 10, Outside { write, ..WELL }, 7, front)
}

#[test]
fn a_failing_write_leaves_a_front(rt: HostRuntime) -> Result<(), Fail> {
    let alloc = rt.alloc();
    assert!(rt; leaves(alloc, 0, b"")?);
    assert!(rt; leaves(alloc, 1, b"hsts log 1")?);
    let front =
        b"hsts log 1\nhandover 1 at 0 groups 3 edges 4\nsince 0\ntoken a p\ntoken a q\nclose\nfire a 0 at 2\nhorizon 1 at 10\nstop ended a";
    assert!(rt; leaves(alloc, 12, front)?);
    Ok(())
}

/// Whether a run ends with this status and writes this.
fn ends(alloc: Global, line: &str, text: &[u8], ended: u8, output: &[u8]) -> Result<bool, Memory> {
    writes(alloc, line, text, 1_000, WELL, ended, output)
}

#[test]
fn each_command_ends_with_its_status(rt: HostRuntime) -> Result<(), Fail> {
    let alloc = rt.alloc();
    let order = b"extension 1 fault 2 order a 0\n";
    let budget = b"budget after 0 path 0\n";
    assert!(rt; ends(alloc, "print", MISSION, 0, PRINTED)?);
    assert!(rt; ends(alloc, "check", MISBEGUN, 11, order)?);
    assert!(rt; ends(alloc, "plan --budget 1", MISSION, 4, budget)?);
    assert!(rt; ends(alloc, "net", UNPLANNABLE, 3, b"no plan after 0\n")?);
    assert!(rt; ends(alloc, "sim", b"hsts 1", 2, b"refused 3 at 6\n")?);
    Ok(())
}

#[test]
fn other_words_are_answered_by_the_usage_line(rt: HostRuntime) -> Result<(), Fail> {
    assert!(rt; ends(rt.alloc(), "fly sim", MISSION, 1, USAGE)?);
    assert!(rt; ends(rt.alloc(), "fly", MISSION, 1, USAGE)?);
    Ok(())
}
