// The climb along the parent arcs.
ghost use Rattle.std.specs.Prelude.{◌≡◌, ◌<◌, length};
ghost use Rattle.walks.specs.SearchTerms.{View};
ghost use Rattle.graph.specs.Search.{ClimbedTo};

use std::ops::Range;

// Climbs from v, marking as it goes. Back at a marked node, the arcs from there on are a cycle, and stand in a part of climbed;
// there is none at a node without a parent. parent[v] is the parent arc of v and 1, or 0, and so are marks: as an Option an entry would take twice the
// room.
pub(crate) fn climb(
    from: &[u16],
    parent: &[usize; 2048],
    climbed: &mut [usize; 2048],
    v: usize,
) -> Option<Range<usize>>
    requires is_view { View from.now parent.now 2048 }
    requires in_view { v < 2048 }
    requires climbed_length { length climbed.old ≡ 2048 }
    ensures { (g : View from.now parent.now 2048) →
        ClimbedTo from.now g.T g.W g.m g.D g.st climbed.new 2048 v result }
{
    let mut mark = [0usize; 2048];
    let mut x = v;
    let mut top = 2048;
    while mark[x] == 0 {
        let p = parent[x];
        if p == 0 {
            return None;
        }
        top -= 1;
        mark[x] = top + 1;
        climbed[top] = p - 1;
        x = usize::from(from[p - 1]);
    }
    Some(top..mark[x])
}
