use ddl_read::Pieces;
use hs_machine::Phase;
use hs_texts::Refusal;
use journal_read::{Stop, read_stop};
use std::alloc::Global;
use std::test::Fail;

/// Where the text stops.
fn stop_of(alloc: Global, text: &[u8]) -> Result<Option<Stop>, Refusal> {
    let pieces = Pieces::cut(alloc, text)?;
    Ok(read_stop(&pieces))
}

/// Whether the text's last line is read, and no line is found in a text that ends otherwise.
fn are_read(alloc: Global) -> Result<bool, Refusal> {
    let failed = stop_of(alloc, b"hsts log 1\nstop failed at 3\n")?;
    let further = stop_of(alloc, b"stop failed at 3 done")?;
    let unknown = stop_of(alloc, b"hsts log 1\nstop sleeping at 3\n")?;
    let told = Stop {
        phase: Phase::Failed,
        at: 3,
    };
    Ok(failed == Some(told) && further.is_none() && unknown.is_none())
}

#[test]
fn a_stop_is_read_at_the_end_alone(rt: HostRuntime) -> Result<(), Fail> {
    assert!(rt; matches!(are_read(rt.alloc()), Ok(true)));
    Ok(())
}
