ghost use Rattle.std.specs.Prelude.{◌≡◌, ◌<◌, ◌≤ℤ◌, pos, length, IfOk};
ghost use Rattle.hs_base.specs.declared.limits.TheConstants.{LAST};
ghost use Rattle.local_propagate.specs.Windows.{AreWindowsOf, times_of};
ghost use Rattle.net_tests.specs.Samples.{chain};

use crate::chain::net;
use hs_base::{LAST, Memory, Net};
use local_propagate::{Minima, Neighbour, Windows};
use std::alloc::Global;
use std::test::Fail;

/// The windows of the small network.
#[tactic(auto, using(crate::proofs::WindowLemmas::joined_chain))]
fn fresh(alloc: Global, net: &Net) -> Result<Windows, Memory>
    requires { net.now ≡ chain }
    ensures windows { IfOk result (AreWindowsOf net.now) }
    ensures groups { IfOk result (λ w. length (times_of w) ≡ 3) }
{
    Windows::fresh(alloc, net)
}

/// Sets a group, where it isn't set.
fn put(windows: &mut Windows, net: &Net, group: u32, at: i64) -> bool
    requires windows { AreWindowsOf net.now windows.old }
    requires groups { length (times_of windows.old) ≡ 3 }
    requires group { group < 3 }
    requires at { (pos 0 ≤ℤ at) × (at ≤ℤ LAST) }
    ensures windows { AreWindowsOf net.now windows.new }
    ensures groups { length (times_of windows.new) ≡ 3 }
{
    if windows.time(group).is_some() {
        return false;
    }
    windows.set(net, group, at);
    true
}

fn is_window(windows: &Windows, group: u32, low: i64, high: i64) -> bool
    requires { group < length (times_of windows.now) }
{
    windows.low(group) == low && windows.high(group) == high
}

/// Whether Z and point 1 leave their neighbours these windows.
fn narrows(alloc: Global) -> Result<bool, Memory> {
    let net = net(alloc)?;
    let mut windows = fresh(alloc, &net)?;
    let whole = is_window(&windows, 1, 0, LAST) && !windows.enabled(&net, 1);
    let begun = put(&mut windows, &net, 0, 0) && is_window(&windows, 1, 1, 5);
    let gone_on = put(&mut windows, &net, 1, 3) && is_window(&windows, 2, 5, 6);
    let free = windows.enabled(&net, 2) && windows.least_high(&net) == 6;
    let after = windows.after(&net, 0) == [Neighbour { group: 1, most: 5 }].as_slice();
    Ok(whole && begun && gone_on && free && after)
}

fn finds_the_least(alloc: Global) -> Result<bool, Memory> {
    let mut minima = Minima::new(alloc, 3, 7)?;
    minima.set(1, 2);
    minima.set(2, 5);
    Ok(minima.at(0) == 7 && minima.least() == 2)
}

#[test]
fn narrows_windows(rt: HostRuntime) -> Result<(), Fail> {
    assert!(rt; matches!(narrows(rt.alloc()), Ok(true)));
    Ok(())
}

#[test]
fn keeps_the_least(rt: HostRuntime) -> Result<(), Fail> {
    assert!(rt; matches!(finds_the_least(rt.alloc()), Ok(true)));
    Ok(())
}
