use crate::networks::network;
use anyhow::Result;
use edge_filter::keep;
use rigid_contract::contract;
use std::rt::Clock;
use std::time::Instant;
use stn_distance::{Broken, ROWS, close_fixed};

/// Times one network of so many points, where they are in 1 to 2,048, and prints its line.
pub(crate) fn measure(rt: &(impl Print + Clock + AllocGlobal), points: u32) -> Result<()> {
    if points < 1 || ROWS < points {
        return Ok(());
    }
    let bounds = network(rt.alloc(), points)?;
    let start = Instant::now(rt)?;
    let dist = close_fixed(rt.alloc(), points, &[], &bounds)?;
    let close = start.elapsed(rt)?;
    let groups = contract(rt.alloc(), &dist).map_err(|none| Broken::from(none))?;
    let start = Instant::now(rt)?;
    let edges = keep(rt.alloc(), &dist, &groups).map_err(|none| Broken::from(none))?;
    let keep = start.elapsed(rt)?;
    println!(rt;
        "{points} {} {} {} {}",
        bounds.len(),
        edges.len(),
        close.as_micros(),
        keep.as_micros()
    )?;
    Ok(())
}
