ghost use Rattle.std.specs.Prelude.{◌≡◌, ◌⊎◌, ℕ, length, IfOk, IsErrOf};
ghost use Rattle.std.specs.Io.KnownBytes.{Keeps};
ghost use Rattle.command_line.specs.declared.request.Request.{Request as AnyRequest};
ghost use Rattle.hs_port.specs.Causes.{Rose};
ghost use Rattle.simulation_laws.specs.Ended.{RoseAt};
ghost use Rattle.sim_run.specs.Runs.{told};
ghost use Rattle.commands.specs.Statuses.{code_of};
ghost use Rattle.exec_main.specs.Ground.{AsksFor, AsksForNone, IsAnswer, IsBuilt, Makes, IsDue, Writes, Delivers};
ghost use Rattle.exec_main.specs.Streams.{IsWritten};
ghost use Rattle.exec_main.specs.declared.top.Stop.TheVariants.{Memory as NoMemory};

use crate::streams::{Unread, read_whole, write_whole};
use command_line::{Command, Request, Unasked, words_of};
use commands::{Outcome, Status, check, net, plan, print, sim};
use hs_base::Memory;
use hs_port::{Device, Sink, Source};
use std::alloc::Global;

const USAGE_LINE: &[u8] = b"usage: hsts COMMAND [--budget N] [--seed N] [--size N]\n";

/// Why nothing is due.
#[derive(Clone, Copy, Debug, PartialEq, Eq)]
enum Stop {
    Usage,
    ReadFault,
    Memory,
}

impl From<Memory> for Stop {
    ghost from_gives = { λ _ e. e ≡ NoMemory };

    fn from(_: Memory) -> Stop {
        Stop::Memory
    }
}

/// What the words ask for, where its command is built.
fn asked(alloc: Global, words: &[String]) -> Result<Request, Stop>
    ensures asks { IfOk result (AsksFor words.now) }
    ensures usage { IsErrOf result Stop.Usage → AsksForNone words.now }
    ensures no_fault { IsErrOf result Stop.ReadFault → ⊥ }
{
    match words_of(alloc, words) {
        Ok(request) => match request.command {
            Command::Drill | Command::Fly => Err(Stop::Usage),
            _ => Ok(request),
        },
        Err(Unasked::Usage) => Err(Stop::Usage),
        Err(Unasked::Memory) => Err(Stop::Memory),
    }
}

/// What a command makes of an input, with so many nodes for a search.
fn answer<D: Device>(
    alloc: Global,
    command: Command,
    budget: u64,
    text: &[u8],
    devices: &mut [D],
) -> Result<Outcome, Memory>
    requires built { IsBuilt command }
    requires devices { length devices.old ≡ 16 }
    ensures same_devices { length devices.new ≡ 16 }
    ensures made { IfOk result (λ o. Makes command budget (told D.polls D.faults devices.old devices.new) text.now o.status o.text) }
    ensures answered { IfOk result (λ o. IsAnswer o.status) }
{
    match command {
        Command::Print => print(alloc, text),
        Command::Check => check(alloc, text),
        Command::Plan => plan(alloc, text, budget),
        Command::Net => net(alloc, text, budget),
        _ => sim(alloc, text, budget, devices),
    }
}

/// Reads the words and the input, and makes the whole output.
fn outcome_of<S: Source, D: Device>(
    alloc: Global,
    words: &[String],
    source: &mut S,
    devices: &mut [D],
) -> Result<Outcome, Stop>
    requires { length devices.old ≡ 16 }
    ensures same_devices { length devices.new ≡ 16 }
    ensures due { (q : AnyRequest) → AsksFor words.now q → IfOk result (λ o. IsDue q (told D.polls D.faults devices.old devices.new) (S.left source.old) (S.left source.new) o.status o.text) }
    ensures answered { IfOk result (λ o. IsAnswer o.status) }
    ensures usage { IsErrOf result Stop.Usage → AsksForNone words.now }
    ensures unasked { AsksForNone words.now → IsErrOf result Stop.Usage ⊎ IsErrOf result Stop.Memory }
    ensures read_fault { IsErrOf result Stop.ReadFault → Rose (S.faults source.old) (S.faults source.new) }
    ensures device_fault { IfOk result (λ o. o.status ≡ Status.DeviceFault → (d : ℕ) × RoseAt (told D.polls D.faults devices.old devices.new) d) }
{
    let request = asked(alloc, words)?;
    match read_whole(alloc, source) {
        Ok(text) => Ok(answer(
            alloc,
            request.command,
            request.budget,
            text.as_slice(),
            devices,
        )?),
        Err(Unread::Failed) => Err(Stop::ReadFault),
        Err(Unread::Memory) => Err(Stop::Memory),
    }
}

/// Writes an outcome, and answers the status.
fn deliver<K: Sink>(sink: &mut K, outcome: &Outcome) -> Status
    requires { IsAnswer outcome.now.status }
    ensures written { Writes (code_of result) outcome.now.status (K.taken sink.old) (K.taken sink.new) outcome.now.text }
    ensures write_fault { result ≡ Status.WriteFault → Rose (K.faults sink.old) (K.faults sink.new) }
{
    match write_whole(sink, outcome.text.as_bytes()) {
        Ok(()) => outcome.status,
        Err(_) => Status::WriteFault,
    }
}

/// Writes the usage line, as far as the sink takes it.
fn tell_usage<K: Sink>(sink: &mut K) -> Status
    ensures status { result ≡ Status.Usage }
    ensures line { IsWritten (K.taken sink.old) (K.taken sink.new) (K.faults sink.old) (K.faults sink.new) USAGE_LINE.now }
{
    let _ = write_whole(sink, USAGE_LINE);
    Status::Usage
}

/// Does what the words ask for, and answers the exit status. The input is read to its end, or until
/// it is too long, before anything is written. The whole output is made before its first byte is
/// written.
pub fn ground<S: Source, K: Sink, D: Device>(
    alloc: Global,
    words: &[String],
    source: &mut S,
    sink: &mut K,
    devices: &mut [D],
) -> u8
    requires { length devices.old ≡ 16 }
    ensures same_devices { length devices.new ≡ 16 }

    // Words that ask for no command are answered by the usage line, which is written whole, or a front of it with a fault.
    ensures usage { result ≡ code_of Status.Usage → AsksForNone words.now }
    ensures usage_line { result ≡ code_of Status.Usage → IsWritten (K.taken sink.old) (K.taken sink.new) (K.faults sink.old) (K.faults sink.new) USAGE_LINE.now }
    ensures unasked { AsksForNone words.now → (result ≡ code_of Status.Usage) ⊎ (result ≡ code_of Status.NoMemory) }

    // What a command makes of the input, with what the devices told, is written, unless the input can't be read or memory is wanting.
    ensures delivered { (q : AnyRequest) → AsksFor words.now q → ((result ≡ code_of Status.ReadFault) ⊎ (result ≡ code_of Status.NoMemory)) ⊎ Delivers q (told D.polls D.faults devices.old devices.new) result (S.left source.old) (S.left source.new) (K.taken sink.old) (K.taken sink.new) }
    ensures silent { (result ≡ code_of Status.ReadFault) ⊎ (result ≡ code_of Status.NoMemory) → Keeps (K.taken sink.old) (K.taken sink.new) }

    // A fault is answered only where one was counted.
    ensures read_fault { result ≡ code_of Status.ReadFault → Rose (S.faults source.old) (S.faults source.new) }
    ensures write_fault { result ≡ code_of Status.WriteFault → Rose (K.faults sink.old) (K.faults sink.new) }
    ensures device_fault { result ≡ code_of Status.DeviceFault → (d : ℕ) × RoseAt (told D.polls D.faults devices.old devices.new) d }
{
    match outcome_of(alloc, words, source, devices) {
        Ok(outcome) => deliver(sink, &outcome).code(),
        Err(Stop::Usage) => tell_usage(sink).code(),
        Err(Stop::ReadFault) => Status::ReadFault.code(),
        Err(Stop::Memory) => Status::NoMemory.code(),
    }
}
