//! hsts: prints a mission, checks a plan or finds one, writes its network, or flies it and writes
//! the log, as the words ask.
#![tactic(auto)]

ghost use Rattle.std.specs.Prelude.{◌≡◌, vec_len, IfOk};

use commands::Status;
use device_script::Told;
use exec_main::ground;
use hs_base::{Memory, VARIABLES};
use hs_port::{StdSink, StdSource};
use std::alloc::Global;
use std::process::ExitCode;
use std::{env, io};

/// Simulated devices, one for each variable that a mission may have.
fn simulated_devices(alloc: Global) -> Result<Vec<Told>, Memory>
    ensures { IfOk result (λ devices. vec_len devices ≡ 16) }
{
    let mut devices = Vec::with_capacity(alloc, VARIABLES)?;
    for made in 0..VARIABLES {
        devices.push(Told::new())?;
    }
    Ok(devices)
}

fn main(rt: HostRuntime) -> ExitCode {
    let alloc = rt.alloc();
    // Words that aren't text are no words that the program knows.
    let words = match env::args(&rt) {
        Ok(words) => words.skip(1).collect::<Vec<String>>(alloc),
        Err(_) => Ok(Vec::new(alloc)),
    };
    let Ok(words) = words else {
        return ExitCode::from(Status::NoMemory.code());
    };
    let Ok(mut devices) = simulated_devices(alloc) else {
        return ExitCode::from(Status::NoMemory.code());
    };
    let mut source = StdSource::new(rt.reader());
    let mut sink = StdSink::new(io::writer(&rt));
    ExitCode::from(ground(
        alloc,
        words.as_slice(),
        &mut source,
        &mut sink,
        devices.as_mut_slice(),
    ))
}
