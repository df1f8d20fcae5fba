use hs_base::{List, Memory, Name, ValId, Var, WordId};
use hs_port::{
    Answer, Clock, Device, Failed, Gate, MemClock, MemDevice, MemSink, MemSource, NoGate, Order,
    Place, PlainClock, Sink, Source, StdSink, StdSource, SureClock, SureSink, SureSource,
};
use std::alloc::{AllocError, Global};
use std::io;
use std::io::{ErrorKind, Read};
use std::test::Fail;

/// A reader that never gives a byte.
#[derive(Drop)]
struct Broken;

impl Read for Broken {
    fn read(&mut self, _buf: &mut [u8]) -> io::Result<usize> {
        Err(ErrorKind::Other.into())
    }
}

/// Whether a read gives just these bytes.
fn gives(source: &mut impl Source, bytes: &[u8]) -> bool {
    let mut into = [0u8; 2];
    match source.read(&mut into) {
        Ok(count) => count == bytes.len() && into.starts_with(bytes),
        Err(Failed) => false,
    }
}

fn fails_to_read(source: &mut impl Source) -> bool {
    source.read(&mut [0u8; 2]).is_err()
}

/// Three bytes, whose second read fails.
fn mem_source(alloc: Global) -> Result<MemSource, AllocError> {
    let bytes = List::from_vec([1, 2, 3].to_vec(alloc)?);
    let fail = List::from_vec([1].to_vec(alloc)?);
    Ok(MemSource::begin(bytes, fail))
}

/// Whether it gives its bytes around its fault.
fn is_read(source: &mut MemSource) -> bool {
    let first = gives(source, &[1, 2]) && fails_to_read(source);
    let rest = gives(source, &[3]) && gives(source, &[]);
    first && rest && source.count() == 1
}

#[test]
fn sources(rt: HostRuntime) -> Result<(), Fail> {
    let mut source = mem_source(rt.alloc())?;
    assert!(rt; is_read(&mut source));
    Ok(())
}

#[test]
fn sure_sources(rt: HostRuntime) -> Result<(), Fail> {
    let mut source = SureSource::begin(List::from_vec([4, 5].to_vec(rt.alloc())?));
    assert!(rt; gives(&mut source, &[4, 5]) && source.count() == 0);
    Ok(())
}

#[test]
fn readers(rt: HostRuntime) -> Result<(), Fail> {
    let bytes: &[u8] = &[6];
    let mut reader = StdSource::new(bytes);
    assert!(rt; gives(&mut reader, &[6]) && reader.count() == 0);
    let mut broken = StdSource::new(Broken);
    assert!(rt; fails_to_read(&mut broken) && broken.count() == 1);
    Ok(())
}

/// Whether a write takes so many of these bytes.
fn takes(sink: &mut impl Sink, piece: &[u8], count: usize) -> bool {
    match sink.write(piece) {
        Ok(taken) => taken == count,
        Err(Failed) => false,
    }
}

fn fails_to_write(sink: &mut impl Sink) -> bool {
    sink.write(&[7, 8, 9]).is_err()
}

/// Room for three bytes, two a write, of which the second fails.
fn mem_sink(alloc: Global) -> Result<MemSink, Memory> {
    let fail = List::from_vec([1].to_vec(alloc)?);
    MemSink::begin(alloc, 3, 2, fail)
}

/// Whether it takes bytes around its fault, until it is full.
fn is_written(sink: &mut MemSink) -> bool {
    let first = takes(sink, &[7, 8, 9], 2) && fails_to_write(sink);
    let rest = takes(sink, &[7, 8, 9], 1) && fails_to_write(sink) && takes(sink, &[], 0);
    first && rest && sink.taken() == [7, 8, 7].as_slice() && sink.count() == 2
}

#[test]
fn sinks(rt: HostRuntime) -> Result<(), Fail> {
    let mut sink = mem_sink(rt.alloc())?;
    assert!(rt; is_written(&mut sink));
    Ok(())
}

#[test]
fn sure_sinks(rt: HostRuntime) -> Result<(), Fail> {
    let mut sink = SureSink::new();
    assert!(rt; takes(&mut sink, &[1, 2], 2) && sink.count() == 0);
    Ok(())
}

#[test]
fn writers(rt: HostRuntime) -> Result<(), Fail> {
    let mut writer = StdSink::new(Vec::<u8>::new(rt.alloc()));
    assert!(rt; takes(&mut writer, &[1, 2], 2) && writer.count() == 0);
    let nowhere: &mut [u8] = &mut [];
    let mut full = StdSink::new(nowhere);
    assert!(rt; fails_to_write(&mut full) && full.count() == 1);
    Ok(())
}

fn ticks(clock: &mut impl Clock) -> bool {
    clock.tick().is_ok()
}

/// Whether its second tick fails.
fn is_ticked(clock: &mut MemClock) -> bool {
    let ticked = ticks(clock) && !ticks(clock) && ticks(clock);
    ticked && clock.ticks() == 2 && clock.count() == 1
}

#[test]
fn clocks_and_gate(rt: HostRuntime) -> Result<(), Fail> {
    let mut clock = MemClock::begin(List::from_vec([1].to_vec(rt.alloc())?));
    assert!(rt; is_ticked(&mut clock));
    let mut sure = SureClock::new();
    assert!(rt; ticks(&mut sure) && sure.count() == 0);
    let mut plain = PlainClock::new();
    assert!(rt; ticks(&mut plain) && plain.count() == 0);
    NoGate::new().at(Place::Planning(1));
    Ok(())
}

/// A device with room for two polls and one answer, whose third call fails.
fn mem_device(alloc: Global) -> Result<MemDevice, Memory> {
    let answers = List::from_vec([Answer::Said(WordId(3))].to_vec(alloc)?);
    let fail = List::from_vec([2].to_vec(alloc)?);
    MemDevice::begin(alloc, 2, answers, fail)
}

fn is_loaded(alloc: Global, device: &mut MemDevice) -> bool {
    let var = Var {
        name: Name::from_vec(Vec::new(alloc)),
        values: List::new(alloc),
        begin: ValId(0),
    };
    device.load(alloc, &var).is_ok()
}

fn is_told(device: &mut MemDevice) -> bool {
    let order = Order::Begin {
        value: ValId(0),
        now: 4,
    };
    device.tell(order).is_ok()
}

fn answers(device: &mut MemDevice, now: i64, answer: Answer) -> bool {
    match device.poll(now) {
        Ok(given) => given == answer,
        Err(Failed) => false,
    }
}

/// Whether it answers around its fault, until it has no room.
fn is_polled(device: &mut MemDevice) -> bool {
    let said = answers(device, 5, Answer::Said(WordId(3))) && device.poll(6).is_err();
    let quiet = answers(device, 7, Answer::Quiet) && device.poll(8).is_err();
    said && quiet && device.count() == 2
}

#[test]
fn devices(rt: HostRuntime) -> Result<(), Fail> {
    let mut device = mem_device(rt.alloc())?;
    assert!(rt; is_loaded(rt.alloc(), &mut device) && is_told(&mut device));
    assert!(rt; is_polled(&mut device));
    let polls = [(5, Answer::Said(WordId(3))), (7, Answer::Quiet)];
    assert!(rt; device.polls() == polls.as_slice());
    Ok(())
}
