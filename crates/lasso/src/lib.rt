// The lasso: a stem along the search tree to the first discovered of a cycle's nodes, and the cycle, turned to begin there.
// Nodes are numbered as they were discovered.
#![tactic(auto)]

ghost use Rattle.lasso.specs.Answer.{LassoAnswered};

use walks::{Arcs, Malformed};

mod form;
mod lay;

// The length of the stem. The arcs of stem and cycle are written in order to the front of lasso, and nothing else is written. tree has the arc
// by which each node but 0 was discovered, the first k entries of cycle are the cycle's arcs.
// The counts stay beside the lists: `LassoArguments.tree_room` and `cycle_room` say that a count past the end of its list is refused.
pub fn lasso_of(
    arcs: Arcs<'_>,
    tree: &[usize],
    nodes: usize,
    cycle: &[usize],
    k: usize,
    lasso: &mut [usize],
) -> Result<usize, Malformed>
    ensures { let g = arcs.entry in LassoAnswered g.from.now g.to.now tree.now cycle.now nodes k lasso.old lasso.new result }
{
    if tree.len() < nodes || cycle.len() < k {
        return Err(Malformed);
    }
    let discovered = &tree[..nodes];
    let turned = &cycle[..k];
    if !form::well_formed(arcs, discovered, turned, lasso.len()) {
        return Err(Malformed);
    }
    Ok(lay::lay_out(arcs, discovered, turned, lasso))
}
