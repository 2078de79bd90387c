// Bench and every change to it, planned: a line for each.
#![tactic(auto)]

mod rows;
mod show;

use rows::{BOUNDS, EDGES, EDGES_TWICE, EDITIONS, FOUR_CLOCKS, IDLE_EDGES, LENGTHS};
use show::Answer;
use std::io;

fn case(rt: &impl Print, name: &str, sheet: &[u8]) -> io::Result<()> {
    let mut nodes = [0u64; 2048];
    let mut potentials = [0i64; 2048];
    let mut steps = [0u16; 2048];
    let answer = Answer(planner::plan(sheet, &mut nodes, &mut potentials, &mut steps));
    println!(rt; "{name}: {answer}")
}

fn all(rt: &impl Print, cases: &[(&str, &[u8])]) -> io::Result<()> {
    for (name, sheet) in cases {
        case(rt, name, sheet)?;
    }
    Ok(())
}

fn main(rt: HostRuntime) -> io::Result<()> {
    all(&rt, &BOUNDS)?;
    all(&rt, &EDGES)?;
    all(&rt, &IDLE_EDGES)?;
    all(&rt, &EDGES_TWICE)?;
    all(&rt, &LENGTHS)?;
    all(&rt, &EDITIONS)?;
    all(&rt, &FOUR_CLOCKS)
}
