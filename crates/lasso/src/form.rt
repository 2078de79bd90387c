// Whether the arguments are well formed.
ghost use Rattle.std.specs.Prelude.{ℕ, ◌<◌, ◌≡◌, length};
ghost use Rattle.walks.specs.Tests.{Test};
ghost use Rattle.lasso.specs.Answer.{TreeArc, CycleArc, LassoArguments};

use walks::Arcs;

// Both lists are as long as one another in three contracts, and `Arcs` may not promise it: C lends lists of any lengths.
fn is_tree_arc(arcs: Arcs<'_>, tree: &[usize], v: usize) -> bool
    requires in_tree { v < length tree.now }
    requires same_length { length arcs.to.now ≡ length arcs.from.now }
    ensures { let g = arcs.entry in Test (TreeArc g.from.now g.to.now tree.now v) result }
{
    let e = tree[v];
    e < arcs.from.len() && usize::from(arcs.to[e]) == v && usize::from(arcs.from[e]) < v
}

fn are_tree_arcs(arcs: Arcs<'_>, tree: &[usize]) -> bool
    requires same_length { length arcs.to.now ≡ length arcs.from.now }
    ensures { let g = arcs.entry in Test ((v : ℕ) → 0 < v → v < length tree.now → TreeArc g.from.now g.to.now tree.now v) result }
{
    (1..tree.len()).all(|v| is_tree_arc(arcs, tree, v))
}

fn is_cycle_arc(from: &[u16], cycle: &[usize], nodes: usize, i: usize) -> bool
    requires { i < length cycle.now }
    ensures { Test (CycleArc from.now cycle.now nodes i) result }
{
    let e = cycle[i];
    e < from.len() && usize::from(from[e]) < nodes
}

fn are_cycle_arcs(from: &[u16], cycle: &[usize], nodes: usize) -> bool
    ensures { Test ((i : ℕ) → i < length cycle.now → CycleArc from.now cycle.now nodes i) result }
{
    (0..cycle.len()).all(|i| is_cycle_arc(from, cycle, nodes, i))
}

pub(crate) fn well_formed(arcs: Arcs<'_>, tree: &[usize], cycle: &[usize], room: usize) -> bool
    ensures { let g = arcs.entry in Test (LassoArguments g.from.now g.to.now tree.now cycle.now (length tree.now) (length cycle.now) room) result }
{
    let nodes = tree.len();
    nodes <= 2048
        && arcs.to.len() == arcs.from.len()
        && !cycle.is_empty()
        && nodes <= room
        && cycle.len() <= room - nodes
        && are_tree_arcs(arcs, tree)
        && are_cycle_arcs(arcs.from, cycle, nodes)
}
