ghost use Rattle.std.specs.Prelude.{◌≡◌, ◌≢◌, ◌↔◌, [], IfOk, OnErr};
ghost use Rattle.hs_port.specs.Causes.{HasCause};
ghost use Rattle.hs_port.specs.Told.{Stays};
ghost use Rattle.sim_run.specs.Parts.{IsHeard};
ghost use Rattle.sim_run.specs.Told.{HasAnswered, HasFailed, known};

use device_script::{Progress, Runner};
use hs_base::ValId;
use hs_port::{Device, Failed, Order};

/// Gives a device the orders of its script that are reached.
pub fn tell_orders<D: Device>(device: &mut D, script: &mut Runner, now: i64) -> Result<(), Failed>
    ensures left { script.new.left ≡ script.old.left }
    ensures polls { Stays (D.polls device.old) (D.polls device.new) }
    ensures cause { HasCause (D.faults device.old) (D.faults device.new) result }
{
    'orders: while let Some((word, amount)) = script.orders() {
        device.tell(Order::Do { word, amount, now })?;
    }
    Ok(())
}

/// Tells a device that a token of a value began, and gives the first orders of its script.
pub fn tell_begin<D: Device>(
    device: &mut D,
    script: &mut Runner,
    value: ValId,
    now: i64,
) -> Result<(), Failed>
    ensures left { script.new.left ≡ script.old.left }
    ensures polls { Stays (D.polls device.old) (D.polls device.new) }
    ensures cause { HasCause (D.faults device.old) (D.faults device.new) result }
{
    device.tell(Order::Begin { value, now })?;
    tell_orders(device, script, now)
}

/// Asks a device what there is to hear, and lets its script hear it.
pub fn ask<D: Device>(device: &mut D, script: &mut Runner, now: i64) -> Result<Progress, Failed>
    requires { script.old.left ≢ [] }
    ensures answered { IfOk result (λ progress. HasAnswered (known D.polls D.faults device.old) (known D.polls D.faults device.new) script.old script.new now) }
    ensures finished { IfOk result (λ progress. (progress ≡ Progress.Finished) ↔ (script.new.left ≡ [])) }
    ensures failed { OnErr result (HasFailed (known D.polls D.faults device.old) (known D.polls D.faults device.new)) }
{
    let answer = device.poll(now)?;
    Ok(script.hear(answer))
}

/// What became of a script at a poll of its device.
#[derive(Clone, Copy, Debug, PartialEq, Eq)]
pub enum Heard {
    /// It goes on.
    On,
    /// It has heard its last word.
    Finished,
    /// The device failed.
    Failed,
}

/// Polls a device whose script runs, and gives it the orders that are reached then.
pub fn hear<D: Device>(device: &mut D, script: &mut Runner, now: i64) -> Heard
    requires { script.old.left ≢ [] }
    ensures { IsHeard result (known D.polls D.faults device.old) (known D.polls D.faults device.new) script.old script.new now }
{
    match ask(device, script, now) {
        Ok(Progress::Finished) => Heard::Finished,
        Ok(Progress::Waiting) => match tell_orders(device, script, now) {
            Ok(()) => Heard::On,
            Err(_) => Heard::Failed,
        },
        Err(_) => Heard::Failed,
    }
}
