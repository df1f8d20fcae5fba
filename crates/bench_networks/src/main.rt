//! Times the distances of random networks and the filter of their edges: for each number of points
//! that an argument names, from 1 to 2,048, one line.
#![tactic(auto)]

mod networks;
mod timing;

use crate::timing::measure;
use anyhow::Result;
use std::env;

fn main(rt: HostRuntime) -> Result<()> {
    println!(rt; "points bounds edges close_fixed keep, in microseconds")?;
    for word in env::args(&rt)?.skip(1) {
        let points = word.parse::<u32>()?;
        measure(&rt, points)?;
    }
    Ok(())
}
