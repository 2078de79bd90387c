// `negative_cycle` for C, for the measurements of bench/graph.
#![tactic(auto)]

ghost use Rattle.graph.specs.Answer.{SearchAnswered};
ghost use Rattle.graph_bench.specs.Number.{search_answer};

use graph::Coefficients;
use walks::{Arcs, Malformed};

// 0 for potentials, 2049 for malformed arguments, else the number of a cycle's arcs.
// Numbers and not a Result, and each slice by itself: the C interface.
#[unsafe(no_mangle)]
pub extern "C" fn graph_bench_negative_cycle(
    from: &[u16],
    to: &[u16],
    cost: &[i16],
    reward: &[u16],
    a: i64,
    b: i64,
    c: i64,
    nodes: usize,
    potential: &mut [i64],
    cycle: &mut [usize],
) -> usize
    ensures { SearchAnswered from.now to.now cost.now reward.now a b c nodes
        potential.old potential.new cycle.old cycle.new (search_answer result) }
{
    let arcs = Arcs {
        from,
        to,
        cost,
        reward,
    };
    match graph::negative_cycle(arcs, Coefficients { a, b, c }, nodes, potential, cycle) {
        Err(Malformed) => 2049,
        Ok(None) => 0,
        Ok(Some(found)) => found,
    }
}
