ghost use Rattle.std.specs.Prelude.{◌≡◌, ◌≢◌, [], true, IfOk};
ghost use Rattle.hs_base.specs.Missions.{ends_waiting};

use device_script::{Progress, Runner, Told};
use hs_base::{List, Memory, Name, Range, Said, Step, ValId, Value, Var, WordId};
use hs_port::{Device, Order};
use std::alloc::Global;
use std::test::Fail;

const DONE: WordId = WordId(0);

const READY: WordId = WordId(1);

const MOVE: WordId = WordId(2);

/// A device is told to move by 3, awaited until it is ready, told to move by 4, and awaited.
fn script(alloc: Global) -> Result<List<Step>, Memory>
    ensures { IfOk result (λ steps. ends_waiting steps ≡ true) }
{
    let mut steps = List::new(alloc);
    steps.push(Step::Do {
        word: MOVE,
        amount: 3,
    })?;
    steps.push(Step::Until { word: READY })?;
    steps.push(Step::Do {
        word: MOVE,
        amount: 4,
    })?;
    steps.push(Step::Until { word: DONE })?;
    Ok(steps)
}

/// Ready after `ready` ticks, and done after `done`.
fn clause(alloc: Global, ready: i64, done: i64) -> Result<List<Said>, Memory> {
    let mut said = List::new(alloc);
    said.push(Said {
        delay: ready,
        word: READY,
    })?;
    said.push(Said {
        delay: done,
        word: DONE,
    })?;
    Ok(said)
}

/// A value with that script. Its first token is ready after 2 ticks and done after 4, its second one
/// both after 1.
fn value(alloc: Global) -> Result<Value, Memory>
    ensures { IfOk result (λ v. ends_waiting v.script ≡ true) }
{
    let script = script(alloc)?;
    let mut answers = List::new(alloc);
    answers.push(clause(alloc, 2, 4)?)?;
    answers.push(clause(alloc, 1, 1)?)?;
    Ok(Value {
        name: Name::from_bytes(alloc, b"turn")?,
        lasts: Range { low: 1, high: 9 },
        by_device: true,
        next: List::new(alloc),
        script,
        answers,
    })
}

/// The simulated device of a variable with that value alone.
fn device(alloc: Global) -> Result<Told, Memory> {
    let mut values = List::new(alloc);
    values.push(value(alloc)?)?;
    let var = Var {
        name: Name::from_bytes(alloc, b"dish")?,
        values,
        begin: ValId(0),
    };
    let mut device = Told::new();
    device.load(alloc, &var)?;
    Ok(device)
}

/// Whether the amounts of the runner's next orders are these, and no further order is given yet.
fn orders(runner: &mut Runner, amounts: &[i64]) -> bool
    ensures { runner.new.left ≡ runner.old.left }
{
    for i in 0..amounts.len() {
        if runner.orders() != Some((MOVE, amounts[i])) {
            return false;
        }
    }
    runner.orders().is_none()
}

/// The first of these ticks at which the device's answer finishes the script.
fn finish(device: &mut Told, runner: &mut Runner, ticks: &[i64]) -> Option<i64>
    requires { runner.old.left ≢ [] }
{
    for i in 0..ticks.len() {
        let Ok(answer) = device.poll(ticks[i]) else {
            return None;
        };
        if runner.hear(answer) == Progress::Finished {
            return Some(ticks[i]);
        }
    }
    None
}

/// The tick at which a script finishes whose token begins at `now`, if the device is polled at these
/// ticks and the runner gives its first order before them and its last one behind them.
fn turn(alloc: Global, device: &mut Told, now: i64, ticks: &[i64]) -> Result<Option<i64>, Memory> {
    let value = value(alloc)?;
    let mut runner = Runner::begin(alloc, &value)?;
    let begin = Order::Begin {
        value: ValId(0),
        now,
    };
    if device.tell(begin).is_err() || !orders(&mut runner, &[3]) {
        return Ok(None);
    }
    let at = finish(device, &mut runner, ticks);
    if !orders(&mut runner, &[4]) {
        return Ok(None);
    }
    Ok(at)
}

/// Whether tokens of the value are finished as its answers say, clause by clause.
fn takes_turns(alloc: Global) -> Result<bool, Memory> {
    let mut device = device(alloc)?;
    let first = turn(alloc, &mut device, 10, &[11, 12, 13, 14, 15])?;
    let second = turn(alloc, &mut device, 20, &[21, 22, 23])?;
    let third = turn(alloc, &mut device, 30, &[31, 32, 33])?;
    Ok(first == Some(14) && second == Some(22) && third == Some(32))
}

/// Each token takes the next clause of its value, the last one again and again; one word comes at a
/// poll, once its delay is over.
#[test]
fn devices_end_their_scripts_clause_by_clause(rt: HostRuntime) -> Result<(), Fail> {
    assert!(rt; matches!(takes_turns(rt.alloc()), Ok(true)));
    Ok(())
}

/// Whether the word that a token left unsaid isn't said for the next one.
fn is_cut_off(alloc: Global) -> Result<bool, Memory> {
    let mut device = device(alloc)?;
    let first = turn(alloc, &mut device, 10, &[12])?;
    let second = turn(alloc, &mut device, 14, &[15, 16])?;
    Ok(first.is_none() && second == Some(16))
}

/// A begin drops what is left of the clause before.
#[test]
fn a_begin_drops_the_clause_before(rt: HostRuntime) -> Result<(), Fail> {
    assert!(rt; matches!(is_cut_off(rt.alloc()), Ok(true)));
    Ok(())
}
