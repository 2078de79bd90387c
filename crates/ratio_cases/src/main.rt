// Runs the least ratio on small graphs and on rings of 2,048 arcs, and prints each answer.
#![tactic(auto)]

use ratio::{NoRatio, Ratio};
use std::fmt::{self, Display};
use std::io;
use walks::Arcs;

#[derive(Drop)]
struct Answer(Result<Ratio, NoRatio>);

impl Display for Answer {
    fn fmt<W: fmt::Write>(&self, f: &mut fmt::Formatter<W>) -> fmt::Result {
        match self.0 {
            Ok(Ratio { p, q, arcs }) => write!(f, "ratio {p} {q}, arcs {arcs}"),
            Err(NoRatio::Malformed) => f.write_str("malformed"),
            Err(NoRatio::NoneEarns) => f.write_str("none earns"),
            Err(NoRatio::IdleGain) => f.write_str("an idle cycle gains"),
        }
    }
}

fn run(
    rt: &impl Print,
    name: &str,
    from: &[u16],
    to: &[u16],
    cost: &[i16],
    reward: &[u16],
    nodes: usize,
) -> io::Result<()> {
    let mut potential = [0i64; 2048];
    let mut cycle = [0usize; 2048];
    let arcs = Arcs {
        from,
        to,
        cost,
        reward,
    };
    let answer = Answer(ratio::least_ratio(arcs, nodes, &mut potential, &mut cycle));
    println!(rt; "{name}: {answer}")
}

// One cycle through 2,048 nodes: an arc costs `each`, the first earns `first`, the others `other`.
fn ring(rt: &impl Print, name: &str, each: i16, first: u16, other: u16) -> io::Result<()> {
    let mut from = [0u16; 2048];
    let mut to = [0u16; 2048];
    let cost = [each; 2048];
    let mut reward = [other; 2048];
    reward[0] = first;
    for i in 0..2048u16 {
        from[usize::from(i)] = i;
        to[usize::from(i)] = (i + 1) % 2048;
    }
    run(rt, name, &from, &to, &cost, &reward, 2048)
}

fn ratios(rt: &impl Print) -> io::Result<()> {
    run(rt, "-6/4", &[0, 1], &[1, 0], &[-4, -2], &[2, 2], 2)?;
    run(rt, "zero", &[0, 1], &[1, 0], &[-4, 4], &[2, 2], 2)?;
    run(
        rt,
        "two cycles",
        &[0, 1, 1],
        &[1, 0, 1],
        &[3, 4, 3],
        &[1, 1, 1],
        2,
    )?;
    run(rt, "a loop at the start", &[0], &[0], &[7], &[21], 1)
}

fn without_cycles(rt: &impl Print) -> io::Result<()> {
    run(rt, "no arc", &[], &[], &[], &[], 1)?;
    run(rt, "a path", &[0, 1], &[1, 2], &[1, 1], &[1, 1], 3)?;
    run(
        rt,
        "a cycle that is not reached",
        &[1, 2],
        &[2, 1],
        &[1, 1],
        &[1, 1],
        3,
    )
}

// A loop that costs c and earns 5, and an idle one that costs d.
fn beside(rt: &impl Print, name: &str, c: i16, d: i16) -> io::Result<()> {
    run(rt, name, &[0, 0], &[0, 0], &[c, d], &[5, 0], 1)
}

fn idle(rt: &impl Print) -> io::Result<()> {
    beside(rt, "an idle cycle that costs", 1, 1)?;
    beside(rt, "an idle cycle that is free, at a ratio of 0", 0, 0)?;
    beside(rt, "an idle cycle that makes money", 1, -1)?;
    beside(
        rt,
        "an idle cycle that makes money, beside one that makes more",
        -2,
        -1,
    )?;
    run(
        rt,
        "only an idle cycle, which makes money",
        &[0],
        &[0],
        &[-1],
        &[0],
        1,
    )
}

fn malformed(rt: &impl Print) -> io::Result<()> {
    run(rt, "an arc to no node", &[0], &[1], &[1], &[1], 1)?;
    run(rt, "no node", &[], &[], &[], &[], 0)
}

fn rings(rt: &impl Print) -> io::Result<()> {
    ring(rt, "largest cost", 10000, 1, 0)?;
    ring(rt, "least cost", -10000, 1, 0)?;
    ring(rt, "largest cost and reward", 10000, 10000, 10000)?;
    ring(rt, "a ring that earns nothing", 1, 0, 0)?;
    ring(
        rt,
        "a ring that makes money and earns nothing",
        -10000,
        0,
        0,
    )
}

fn main(rt: HostRuntime) -> io::Result<()> {
    ratios(&rt)?;
    without_cycles(&rt)?;
    idle(&rt)?;
    malformed(&rt)?;
    rings(&rt)
}
