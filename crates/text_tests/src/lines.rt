use answer_lines::{
    fault_line, push_budget, push_checked, push_drill, push_no_plan, push_not_one, refusal_line,
};
use hs_base::{Bound, Fault, List, Memory, Mission, Name, PointId};
use hs_texts::{Refusal, Text};
use std::alloc::Global;
use std::test::Fail;

fn empty(alloc: Global) -> Mission {
    Mission {
        vars: List::new(alloc),
        needs: List::new(alloc),
        horizons: List::new(alloc),
        words: List::new(alloc),
    }
}

/// Whether the refusal is told so.
fn is_refusal_line(alloc: Global, refusal: &Refusal, line: &str) -> Result<bool, Memory> {
    let text = refusal_line(alloc, refusal)?;
    Ok(text.as_bytes() == line.as_bytes())
}

#[test]
fn writes_refusals(rt: HostRuntime) -> Result<(), Fail> {
    let unknown = Refusal::Unknown {
        name: Name::from_bytes(rt.alloc(), b"shoots")?,
    };
    assert!(rt; is_refusal_line(rt.alloc(), &unknown, "refused 7 unknown shoots\n")?);
    let expected = Refusal::Expected { at: 23 };
    assert!(rt; is_refusal_line(rt.alloc(), &expected, "refused 3 at 23\n")?);
    Ok(())
}

/// Whether the fault of a mission's first extension is told so.
fn is_fault_line(alloc: Global, fault: &Fault, lines: &str) -> Result<bool, Memory> {
    let mission = empty(alloc);
    let text = fault_line(alloc, &mission, &[], fault)?;
    Ok(text.as_bytes() == lines.as_bytes())
}

/// The shortest cycle.
fn cycle(alloc: Global) -> Result<Fault, Memory> {
    let bound = Bound {
        from: PointId(0),
        to: PointId(0),
        most: -1,
    };
    Ok(Fault::Cycle(List::from_vec(Vec::from_slice(alloc, &[bound])?)))
}

#[test]
fn writes_faults(rt: HostRuntime) -> Result<(), Fail> {
    let order = Fault::Base {
        given: 0,
        current: 0,
    };
    assert!(rt; is_fault_line(rt.alloc(), &order, "extension 0 fault 1 base 0 0\n")?);
    let cycle = cycle(rt.alloc())?;
    let lines = "extension 0 fault 7 cycle\nZ to Z most -1\n";
    assert!(rt; is_fault_line(rt.alloc(), &cycle, lines)?);
    Ok(())
}

#[test]
fn writes_endings(rt: HostRuntime) -> Result<(), Fail> {
    let mut text = Text::new(rt.alloc());
    push_no_plan(&mut text, 0)?;
    push_budget(&mut text, 0, &[0, 0, 1])?;
    push_checked(&mut text, 1)?;
    push_not_one(&mut text, 2)?;
    push_drill(&mut text, 40, 130, 81, 40, 2000)?;
    let lines =
        "no plan after 0\nbudget after 0 path 0 0 1\nok 1\nextension 2 fault 1 base 2 0\ndrill horizons 40 points 130 fires 81 reports 40 now 2000\n";
    assert!(rt; text.as_bytes() == lines.as_bytes());
    Ok(())
}
