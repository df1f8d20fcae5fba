//! The outside: bytes in and out, ticks, devices and a gate. Each but the gate counts its faults.
#![tactic(auto)]

mod clock;
mod copying;
mod device;
mod failed;
mod failing;
mod gate;
mod mem_clock;
mod mem_device;
mod mem_sink;
mod mem_source;
mod plain_clock;
mod sink;
mod source;
mod std_sink;
mod std_source;
mod sure_clock;
mod sure_sink;
mod sure_source;

pub use clock::Clock;
pub use device::{Answer, Device, Order};
pub use failed::Failed;
pub use gate::{Gate, NoGate, Place};
pub use mem_clock::MemClock;
pub use mem_device::MemDevice;
pub use mem_sink::MemSink;
pub use mem_source::MemSource;
pub use plain_clock::PlainClock;
pub use sink::Sink;
pub use source::Source;
pub use std_sink::StdSink;
pub use std_source::StdSource;
pub use sure_clock::SureClock;
pub use sure_sink::SureSink;
pub use sure_source::SureSource;
