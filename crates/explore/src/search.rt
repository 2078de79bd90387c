// The search: turn by turn, each code at each node found. `as` narrows where the number is proved to fit; try_from would give a Result that never
// fails.
ghost use Rattle.explore.specs.Explorable.{Explorable};
ghost use Rattle.explore.specs.Lists.{buffers_of, SameNodeLists, SameArcLists};
ghost use Rattle.explore.specs.Answer.{ExploreAnswered};

use crate::arcs::ArcLists;
use crate::index::NodeLists;
use crate::{Size, Unexplored};
use sheet::Sheet;

// Turn t is the code t % 34 at the node t / 34. The number of turns grows with the nodes, so that no range has them.
pub(crate) fn search(
    sheet: Sheet,
    nodes: &mut NodeLists,
    arcs: &mut ArcLists,
) -> Result<Size, Unexplored>
    requires { Explorable sheet (buffers_of nodes.old arcs.old) }
    ensures same_nodes { SameNodeLists nodes.old nodes.new }
    ensures same_arcs { SameArcLists arcs.old arcs.new }
    ensures answered { ExploreAnswered sheet (buffers_of nodes.old arcs.old) (buffers_of nodes.new arcs.new) result }
{
    let written = sheet.edge;
    let edges = stepper::edge_records(written);
    let listed = sheet.location;
    let locations = stepper::location_records(listed);
    nodes.numbers[0] = 0;
    nodes.sorted[0] = 0;
    nodes.order[0] = 0;
    let mut hints = [0u16; 8192];
    let mut n = 1;
    let mut m = 0;
    let mut t = 0;
    while t < 34 * n {
        let i = t / 34;
        let k = t % 34;
        t += 1;
        let x = nodes.numbers[i];
        let edge = edges[k % 32];
        if stepper::elsewhere(x, sheet.edition, k, edge.source) {
            continue;
        }
        let l = stepper::location_needed(x, sheet.edition, k, edge.target);
        let location = locations[l];
        let Some(s) = stepper::step_at(
            x,
            k,
            sheet.edition,
            sheet.clocks,
            sheet.edges,
            edge,
            location,
        ) else {
            continue;
        };
        let slot = crate::hints::slot(s.number);
        let hint = hints[slot];
        let Some(j) = nodes.enter(n, s.number, m, hint) else {
            return Err(Unexplored::TooMany);
        };
        arcs.set(m, i as u16, j as u16, k as u16, s.cost, s.reward);
        m += 1;
        if j == n {
            hints[slot] = n as u16;
            n += 1;
        }
    }
    Ok(Size { nodes: n, arcs: m })
}
