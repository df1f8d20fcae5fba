use ddl_read::Pieces;
use hs_base::{Memory, Name};
use hs_texts::{Refusal, Text};
use journal_read::read;
use sample_missions::camera;
use std::alloc::Global;
use std::test::Fail;

/// What stands before the lines that are tried, 97 bytes: a plan of two tokens is handed over.
const FRONT: &[u8] =
    b"hsts log 1 handover 1 at 0 groups 4 edges 7 since 0 token camera idle token attitude earth close ";

/// A log with these lines behind the handover.
fn log(alloc: Global, lines: &[u8]) -> Result<Text, Memory> {
    let mut text = Text::new(alloc);
    text.push_bytes(FRONT)?;
    text.push_bytes(lines)?;
    text.push_bytes(b" stop failed at 9")?;
    Ok(text)
}

/// Whether the log of the camera mission with these lines is refused so.
fn is_refused(alloc: Global, lines: &[u8], refusal: &Refusal) -> Result<bool, Refusal> {
    let mission = camera(alloc)?;
    let text = log(alloc, lines)?;
    let pieces = Pieces::cut(alloc, text.as_bytes())?;
    let read = read(alloc, &mission, &pieces, 0);
    Ok(read.err().as_ref() == Some(refusal))
}

/// Whether it is refused at that place, where something else was expected.
fn is_refused_at(alloc: Global, lines: &[u8], at: u32) -> bool {
    matches!(
        is_refused(alloc, lines, &Refusal::Expected { at }),
        Ok(true)
    )
}

#[test]
fn refuses_points_at_their_first_piece(rt: HostRuntime) -> Result<(), Fail> {
    let refused: [(&[u8], u32); 7] = [
        (b"fire camera 1 at 1", 102),
        (b"report attitude 1 at 1", 104),
        (b"horizon 2 at 1", 105),
        (b"late Z to camera 1 most 3 at 1", 107),
        (b"early H 2 to Z most 3 at 1", 103),
        (b"handover 0 at 1", 106),
        (b"fire Z at 1", 102),
    ];
    for (lines, at) in refused {
        assert!(rt; is_refused_at(rt.alloc(), lines, at), "place {at}");
    }
    Ok(())
}

#[test]
fn looks_at_the_bound_of_a_late_plan_behind_its_body(rt: HostRuntime) -> Result<(), Fail> {
    let refused: [(&[u8], u32); 3] = [
        (
            b"stale 2 at 1 bound camera 2 to H 3 most 1 times 1 2 since 0 token camera idle close",
            116,
        ),
        (
            b"stale 2 at 1 bound camera 1 to H 3 most 1 times 1 2 since 0 token camera idle close",
            128,
        ),
        (
            b"stale 2 at 1 bound camera 2 to H 3 most 1 times 1 2 since 0 token camera 1 close",
            170,
        ),
    ];
    for (lines, at) in refused {
        assert!(rt; is_refused_at(rt.alloc(), lines, at), "place {at}");
    }
    Ok(())
}

/// Whether the name is refused as unknown.
fn is_unknown(alloc: Global, lines: &[u8], name: &[u8]) -> Result<bool, Refusal> {
    let name = Name::from_bytes(alloc, name)?;
    is_refused(alloc, lines, &Refusal::Unknown { name })
}

#[test]
fn names_the_first_unknown_name_of_a_whole_log(rt: HostRuntime) -> Result<(), Fail> {
    let alloc = rt.alloc();
    let bound = b"stale 2 at 1 bound lens 0 to Z most 1 times 1 2 since 0 token lamp on close";
    assert!(rt; matches!(is_unknown(alloc, bound, b"lens"), Ok(true)));
    assert!(rt; is_refused_at(alloc, b"fire lens 0 at 1 broken Z at 1", 121));
    let behind = Refusal::Trailing { at: 131 };
    let two = is_refused(alloc, b"fire lens 0 at 1 stop failed at 1", &behind);
    assert!(rt; matches!(two, Ok(true)));
    Ok(())
}
