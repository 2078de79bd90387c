// Stem and cycle, laid out.
ghost use Rattle.std.specs.Prelude.{◌≡◌, ℕ, ◌+◌, ◌≤◌, ◌<◌, length};
ghost use Rattle.std.proofs.Math.Seq.{slice};
ghost use Rattle.walks.specs.Walk.{at};
ghost use Rattle.walks.specs.Lasso.{Tree, Stem};
ghost use Rattle.lasso.specs.Answer.{LassoArguments, AlongTree, LaidOut};

use walks::Arcs;

// The tree's arcs from node 0 to h, at the end of path; where they begin.
fn stem(from: &[u16], tree: &[usize], path: &mut [usize], h: usize) -> usize
    requires is_tree { Tree from.now tree.now (length tree.now) }
    requires in_tree { h < length tree.now }
    requires path_room { length tree.now ≤ length path.old }
    ensures within { result ≤ length path.old }
    ensures few { length path.old ≤ result + length tree.now }
    ensures laid { ((g : Tree from.now tree.now (length tree.now)) → Stem from.now g.T g.m 0 (slice result (length path.new) path.new) h
        × AlongTree g.T tree.now (slice result (length path.new) path.new)) }
{
    let mut x = h;
    let mut top = path.len();
    while 0 < x {
        let e = tree[x];
        top -= 1;
        path[top] = e;
        x = usize::from(from[e]);
    }
    top
}

// The place of the first arc that leaves the first discovered node. By index from 1 on: before an arc is passed there is no least one.
fn first(from: &[u16], cycle: &[usize]) -> usize
    requires some { 0 < length cycle.now }
    requires arcs_in { ((i : ℕ) → i < length cycle.now → at cycle.now i < length from.now) }
    ensures in_cycle { result < length cycle.now }
    ensures least { ((i : ℕ) → i < length cycle.now → at from.now (at cycle.now result) ≤ at from.now (at cycle.now i)) }
    ensures earliest { ((i : ℕ) → i < result → at from.now (at cycle.now result) < at from.now (at cycle.now i)) }
{
    let mut t = 0;
    let mut best = from[cycle[0]];
    for i in 1..cycle.len() {
        let x = from[cycle[i]];
        if x < best {
            best = x;
            t = i;
        }
    }
    t
}

// The length of the stem; stem and cycle are written.
pub(crate) fn lay_out(arcs: Arcs<'_>, tree: &[usize], cycle: &[usize], lasso: &mut [usize]) -> usize
    requires { LassoArguments arcs.from.now arcs.to.now tree.now cycle.now (length tree.now) (length cycle.now) (length lasso.old) }
    ensures { let g = arcs.entry in LaidOut g.from.now g.to.now tree.now cycle.now (length tree.now) (length cycle.now) result lasso.old lasso.new }
{
    let mut path = [0usize; 2048];
    let turn = first(arcs.from, cycle);
    let hub = usize::from(arcs.from[cycle[turn]]);
    let top = stem(arcs.from, tree, &mut path, hub);
    let s = 2048 - top;
    let turned = s + (cycle.len() - turn);
    lasso[..s].copy_from_slice(&path[top..]);
    lasso[s..turned].copy_from_slice(&cycle[turn..]);
    lasso[turned..turned + turn].copy_from_slice(&cycle[..turn]);
    s
}
