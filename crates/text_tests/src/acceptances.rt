use ddl_read::read;
use domain_check::accept;
use hs_base::{Kind, Memory, Mission, Name, Need, SvId, ValId};
use hs_texts::Refusal;
use std::alloc::Global;
use std::test::Fail;

/// What differs from one test to the next: what may follow `idle`, how long a shot lasts, what it
/// needs, how many goals there are, and when the last horizon ends.
#[derive(Clone, Copy)]
struct Sample {
    next: &'static [u8],
    lasts: &'static [u8],
    by: &'static [u8],
    goals: usize,
    last: &'static [u8],
}

const SAMPLE: Sample = Sample {
    next: b"shoot",
    lasts: b"[3,5]",
    by: b"attitude.comet",
    goals: 1,
    last: b"200",
};

/// What stands between these in a mission's text.
const IDLE: &[u8] = b"hsts 1 var camera value idle [1,inf] then ";

const SHOOT: &[u8] = b" value shoot ";

const NEED: &[u8] =
    b" by device then idle script until ready answers 4 done begin idle var attitude value earth [1,inf] then comet value comet [1,inf] begin earth need camera.shoot contained_by [0,inf] [0,inf] ";

const HORIZON: &[u8] = b" horizon 100";

const GOAL: &[u8] = b" goal camera.shoot start [20,40]";

fn push(text: &mut Vec<u8>, parts: &[&[u8]]) -> Result<(), Memory> {
    for part in parts {
        text.extend_from_slice(part)?;
    }
    Ok(())
}

fn text(alloc: Global, sample: &Sample) -> Result<Vec<u8>, Memory> {
    let mut text = Vec::new(alloc);
    push(
        &mut text,
        &[
            IDLE,
            sample.next,
            SHOOT,
            sample.lasts,
            NEED,
            sample.by,
            HORIZON,
        ],
    )?;
    for _ in 0..sample.goals {
        push(&mut text, &[GOAL])?;
    }
    push(&mut text, &[b" horizon ", sample.last, b" end"])?;
    Ok(text)
}

fn accepted(alloc: Global, sample: &Sample) -> Result<Mission, Refusal> {
    let text = text(alloc, sample)?;
    let ast = read(alloc, text.as_slice())?;
    accept(alloc, &ast)
}

/// Whether the sample is refused so.
fn is_refused(alloc: Global, sample: &Sample, refusal: Refusal) -> bool {
    match accepted(alloc, sample) {
        Ok(_) => false,
        Err(given) => given == refusal,
    }
}

fn kind(sv: u32, value: u32) -> Kind {
    Kind {
        sv: SvId(sv),
        value: ValId(value),
    }
}

/// Whether a shot needs the comet.
fn is_aimed(needs: &[Need]) -> bool {
    match needs {
        [need] => match need.either.as_slice() {
            [choice] => need.of == kind(0, 1) && choice.by == kind(1, 1),
            _ => false,
        },
        _ => false,
    }
}

fn are_words(words: &[Name]) -> bool {
    match words {
        [first, second] => {
            first.as_bytes() == b"done".as_slice() && second.as_bytes() == b"ready".as_slice()
        }
        _ => false,
    }
}

#[test]
fn numbers_a_mission(rt: HostRuntime) -> Result<(), Fail> {
    let mission = accepted(rt.alloc(), &SAMPLE)?;
    assert!(rt; are_words(mission.words.as_slice()));
    assert!(rt; is_aimed(mission.needs.as_slice()));
    Ok(())
}

#[test]
fn gives_the_first_refusal(rt: HostRuntime) -> Result<(), Fail> {
    let alloc = rt.alloc();
    let mut sample = SAMPLE;
    sample.goals = 17;
    assert!(rt; is_refused(alloc, &sample, Refusal::Limit { which: 7 }));
    sample.lasts = b"[6,5]";
    assert!(rt; is_refused(alloc, &sample, Refusal::Range { item: 1 }));
    sample.next = b"shoots";
    let name = Name::from_bytes(alloc, b"shoots")?;
    assert!(rt; is_refused(alloc, &sample, Refusal::Unknown { name }));
    Ok(())
}

#[test]
fn compares_horizons_and_variables(rt: HostRuntime) -> Result<(), Fail> {
    let alloc = rt.alloc();
    let mut sample = SAMPLE;
    sample.by = b"camera.idle";
    assert!(rt; is_refused(alloc, &sample, Refusal::SameVar { item: 0 }));
    sample.last = b"100";
    assert!(rt; is_refused(alloc, &sample, Refusal::Horizons { item: 1 }));
    Ok(())
}
