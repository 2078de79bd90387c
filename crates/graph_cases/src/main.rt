// Small graphs with known answers, a line for each: the answer, then the two buffers, whose entries are 7 where nothing was written.
#![tactic(auto)]

mod run;
mod show;

use graph::Coefficients;
use run::{costed, sized, weighed};
use std::io;

fn cycles(rt: &impl Print) -> io::Result<()> {
    costed(rt, "a cycle of weight 0", 2, &[0, 1, 5, 0, 1, 0, -5, 0])?;
    costed(rt, "a cycle of weight -1", 2, &[0, 1, 5, 0, 1, 0, -6, 0])?;
    costed(
        rt,
        "two cycles, the second negative",
        3,
        &[0, 1, 1, 0, 1, 0, 1, 0, 1, 2, 3, 0, 2, 1, -4, 0],
    )?;
    costed(
        rt,
        "a negative cycle far from the start",
        5,
        &[0, 1, 9, 0, 1, 2, 9, 0, 2, 3, 9, 0, 3, 4, 2, 0, 4, 3, -3, 0],
    )?;
    costed(
        rt,
        "a negative cycle that is not reached",
        4,
        &[0, 1, 4, 0, 2, 3, -1, 0, 3, 2, -1, 0],
    )
}

fn loops(rt: &impl Print) -> io::Result<()> {
    costed(rt, "a loop of weight -1", 2, &[0, 1, 4, 0, 1, 1, -1, 0])?;
    costed(rt, "a loop of weight 0", 2, &[0, 1, 4, 0, 1, 1, 0, 0])?;
    costed(rt, "a loop at the start", 1, &[0, 0, -1, 0])?;
    costed(
        rt,
        "arcs side by side",
        2,
        &[0, 1, 3, 0, 0, 1, 1, 0, 1, 0, -2, 0],
    )?;
    costed(rt, "no arcs", 3, &[])?;
    costed(rt, "a path", 3, &[0, 1, 5, 0, 1, 2, -9, 0, 0, 2, -3, 0])
}

// Weights by the number of arcs, by rewards alone, and at a ratio.
fn weights(rt: &impl Print) -> io::Result<()> {
    let by_arcs = Coefficients { a: 0, b: 0, c: -1 };
    let by_reward = Coefficients { a: 0, b: -1, c: 0 };
    weighed(
        rt,
        "some cycle",
        by_arcs,
        3,
        &[0, 1, 1, 0, 1, 2, 2, 4, 2, 0, 3, 0],
    )?;
    weighed(rt, "no cycle", by_arcs, 3, &[0, 1, 1, 0, 1, 2, 2, 4])?;
    weighed(
        rt,
        "a cycle that earns",
        by_reward,
        2,
        &[0, 1, 1, 0, 1, 0, 2, 4],
    )?;
    weighed(
        rt,
        "cycles without reward",
        by_reward,
        2,
        &[0, 1, 1, 0, 1, 0, -2, 0, 1, 1, -3, 0],
    )?;
    weighed(
        rt,
        "no cycle below -3/2",
        Coefficients { a: 2, b: 3, c: 0 },
        2,
        &[0, 1, -4, 2, 1, 0, 1, 0],
    )?;
    weighed(
        rt,
        "a cycle below -1/1",
        Coefficients { a: 1, b: 1, c: 0 },
        2,
        &[0, 1, -4, 2, 1, 0, 1, 0],
    )
}

fn ranges(rt: &impl Print) -> io::Result<()> {
    costed(rt, "no nodes", 0, &[])?;
    costed(rt, "a source out of range", 2, &[0, 0, 1, 0, 2, 0, 1, 0])?;
    costed(rt, "a target out of range", 2, &[0, 0, 1, 0, 0, 2, 1, 0])?;
    costed(rt, "a cost of 10001", 1, &[0, 0, 10001, 0])?;
    costed(rt, "a cost of -10001", 1, &[0, 0, -10001, 0])?;
    costed(rt, "a reward of 10001", 1, &[0, 0, 1, 10001])
}

fn coefficients(rt: &impl Print) -> io::Result<()> {
    weighed(
        rt,
        "a coefficient of 20480001",
        Coefficients {
            a: 20480001,
            b: 0,
            c: 0,
        },
        1,
        &[0, 0, 1, 1],
    )?;
    weighed(
        rt,
        "a coefficient of -20480002",
        Coefficients {
            a: 0,
            b: -20480002,
            c: 0,
        },
        1,
        &[0, 0, 1, 1],
    )?;
    weighed(
        rt,
        "a coefficient of 2",
        Coefficients { a: 0, b: 0, c: 2 },
        1,
        &[0, 0, 1, 1],
    )?;
    let most = Coefficients {
        a: 20480000,
        b: -20480001,
        c: -1,
    };
    weighed(
        rt,
        "the largest numbers",
        most,
        2,
        &[0, 1, -10000, 10000, 0, 0, 10000, 10000],
    )
}

fn lengths(rt: &impl Print) -> io::Result<()> {
    sized(rt, "fewer sources", 1, 1, 2, 2, 2, 5, 5)?;
    sized(rt, "fewer targets", 1, 2, 1, 2, 2, 5, 5)?;
    sized(rt, "fewer costs", 1, 2, 2, 1, 2, 5, 5)?;
    sized(rt, "fewer rewards", 1, 2, 2, 2, 1, 5, 5)?;
    sized(rt, "too few potentials", 5, 1, 1, 1, 1, 4, 5)?;
    sized(rt, "room for too few arcs", 5, 1, 1, 1, 1, 5, 4)?;
    sized(rt, "2048 nodes", 2048, 1, 1, 1, 1, 2048, 2048)?;
    sized(rt, "2049 nodes", 2049, 1, 1, 1, 1, 2049, 2049)?;
    sized(rt, "69632 arcs", 1, 69632, 69632, 69632, 69632, 1, 1)?;
    sized(rt, "69633 arcs", 1, 69633, 69633, 69633, 69633, 1, 1)
}

fn main(rt: HostRuntime) -> io::Result<()> {
    cycles(&rt)?;
    loops(&rt)?;
    weights(&rt)?;
    ranges(&rt)?;
    coefficients(&rt)?;
    lengths(&rt)
}
