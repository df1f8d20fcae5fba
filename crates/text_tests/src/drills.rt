use ddl_read::read;
use domain_check::accept;
use drill_mission::{Draws, drill};
use hs_base::{Memory, Mission, Same};
use hs_texts::Refusal;
use std::alloc::Global;
use std::test::Fail;

const SWITCH: &[u8] =
    b"hsts 1 var v0 value off [1,inf] then on value on [1,inf] then off begin off";

const REST_AND_WORK: &[u8] =
    b" value rest [1,inf] then work value work [2,4] by device then rest answers 3 done begin rest";

const ON: &[u8] = b".work contained_by [0,inf] [0,inf] v0.on";

/// The drill of size 3 from seed 0.
const FIRST: &[u8] =
    b" horizon 50 goal v4.work start [10,27] horizon 100 goal v4.work start [60,84] horizon 150 goal v1.work start [110,129] end";

/// The drill of size 3 from seed 1.
const SECOND: &[u8] =
    b" horizon 50 goal v2.work start [10,34] horizon 100 goal v6.work start [60,74] horizon 150 goal v6.work start [110,120] end";

fn text(alloc: Global, horizons: &[u8]) -> Result<Vec<u8>, Memory> {
    let mut text = Vec::from_slice(alloc, SWITCH)?;
    for digit in b"1234567" {
        text.extend_from_slice(b" var v")?;
        text.push(*digit)?;
        text.extend_from_slice(REST_AND_WORK)?;
    }
    for digit in b"1234567" {
        text.extend_from_slice(b" need v")?;
        text.push(*digit)?;
        text.extend_from_slice(ON)?;
    }
    text.extend_from_slice(horizons)?;
    Ok(text)
}

fn accepted(alloc: Global, horizons: &[u8]) -> Result<Mission, Refusal> {
    let text = text(alloc, horizons)?;
    let ast = read(alloc, text.as_slice())?;
    accept(alloc, &ast)
}

/// Whether the mission is the drill of size 3 from that seed.
fn is_drill(alloc: Global, mission: &Mission, seed: u64) -> Result<bool, Memory> {
    let drill = drill(alloc, 3, seed)?;
    Ok(drill.same(mission))
}

/// Whether the drill of size 3 from that seed is the mission with these horizons.
fn has_horizons(alloc: Global, seed: u64, horizons: &[u8]) -> Result<bool, Memory> {
    match accepted(alloc, horizons) {
        Ok(mission) => is_drill(alloc, &mission, seed),
        Err(_) => Ok(false),
    }
}

#[test]
fn draws_a_drill_from_its_seed(rt: HostRuntime) -> Result<(), Fail> {
    assert!(rt; has_horizons(rt.alloc(), 0, FIRST)?);
    assert!(rt; has_horizons(rt.alloc(), 1, SECOND)?);
    assert!(rt; !has_horizons(rt.alloc(), 2, FIRST)?);
    Ok(())
}

/// The first words of seed 0, as the generator's other ports give them.
#[test]
fn draws_words(rt: HostRuntime) {
    let mut draws = Draws::begin(0);
    assert_eq!(rt; draws.word(), 298_703_107);
    assert_eq!(rt; draws.below(20), 7);
}
