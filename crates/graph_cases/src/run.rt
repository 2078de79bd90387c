// A graph given as rows or by its sizes, searched and printed.
use crate::show::{Answer, Cycle, Potentials};
use graph::Coefficients;
use std::io;
use walks::Arcs;

fn lent(
    rt: &impl Print,
    name: &str,
    arcs: Arcs<'_>,
    k: Coefficients,
    nodes: usize,
    potential: &mut [i64],
    cycle: &mut [usize],
) -> io::Result<()> {
    let answer = Answer(graph::negative_cycle(arcs, k, nodes, potential, cycle));
    println!(rt;
        "{name}: {answer} |{} |{}",
        Potentials(potential),
        Cycle(cycle)
    )
}

// A source, a target or a reward of a row.
fn natural(x: i16) -> u16 {
    u16::try_from(x).unwrap_or(0)
}

// At most five arcs, a row of source, target, cost and reward for each, and buffers of five entries.
pub(crate) fn weighed(
    rt: &impl Print,
    name: &str,
    k: Coefficients,
    nodes: usize,
    rows: &[i16],
) -> io::Result<()> {
    let mut from = [0u16; 5];
    let mut to = [0u16; 5];
    let mut cost = [0i16; 5];
    let mut reward = [0u16; 5];
    let mut potential = [7i64; 5];
    let mut cycle = [7usize; 5];
    let m = (rows.len() / 4).min(5);
    for (i, row) in rows.chunks_exact(4).take(5).enumerate() {
        if let [u, v, c, r] = row {
            from[i] = natural(*u);
            to[i] = natural(*v);
            cost[i] = *c;
            reward[i] = natural(*r);
        }
    }
    let arcs = Arcs {
        from: &from[..m],
        to: &to[..m],
        cost: &cost[..m],
        reward: &reward[..m],
    };
    lent(rt, name, arcs, k, nodes, &mut potential, &mut cycle)
}

// Each arc weighs its cost.
pub(crate) fn costed(rt: &impl Print, name: &str, nodes: usize, rows: &[i16]) -> io::Result<()> {
    weighed(rt, name, Coefficients { a: 1, b: 0, c: 0 }, nodes, rows)
}

// Loops of weight 0 at the start, as many as each slice has entries, and buffers of the given lengths.
pub(crate) fn sized(
    rt: &impl Print,
    name: &str,
    nodes: usize,
    f: usize,
    t: usize,
    c: usize,
    r: usize,
    potentials: usize,
    arcs: usize,
) -> io::Result<()> {
    let from = [0u16; 69633];
    let to = [0u16; 69633];
    let cost = [0i16; 69633];
    let reward = [0u16; 69633];
    let mut potential = [7i64; 2049];
    let mut cycle = [7usize; 2049];
    if 69633 < f || 69633 < t || 69633 < c || 69633 < r || 2049 < potentials || 2049 < arcs {
        return Ok(());
    }
    let lists = Arcs {
        from: &from[..f],
        to: &to[..t],
        cost: &cost[..c],
        reward: &reward[..r],
    };
    let by_cost = Coefficients { a: 1, b: 0, c: 0 };
    lent(
        rt,
        name,
        lists,
        by_cost,
        nodes,
        &mut potential[..potentials],
        &mut cycle[..arcs],
    )
}
