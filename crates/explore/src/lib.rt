// The nodes that are reachable on a decoded sheet, in order of discovery, and all steps between them as the arcs of a graph.
#![tactic(auto)]

ghost use Rattle.std.specs.Prelude.{IsTrue, ◌↔◌};
ghost use Rattle.explore.specs.Lists.{buffers_of, SameNodeLists, SameArcLists};
ghost use Rattle.explore.specs.Explorable.{CountsInRange};
ghost use Rattle.explore.specs.Answer.{ExploreAnswered};

use sheet::Sheet;

mod arcs;
mod hints;
mod index;
mod search;

pub use arcs::ArcLists;
pub use index::NodeLists;

// How many nodes and arcs were found.
#[derive(Clone, Copy, Debug, PartialEq, Eq)]
pub struct Size {
    pub nodes: usize,
    pub arcs: usize,
}

// The sheet was refused or has a count out of range, or a list is too short; or more than 2,048 nodes are reachable.
#[derive(Clone, Copy, Debug, PartialEq, Eq)]
pub enum Unexplored {
    Malformed,
    TooMany,
}

// Whether the counts of locations, clocks and edges are in range in the sheet's edition. The reader's function of this name is private and asks
// it of counts that are not yet a sheet's.
fn counts_in_range(sheet: &Sheet) -> bool
    ensures { IsTrue result ↔ CountsInRange sheet.now.edition sheet.now.locations sheet.now.clocks sheet.now.edges }
{
    (1..=12).contains(&sheet.locations)
        && (1..=editions::most_clocks(sheet.edition)).contains(&sheet.clocks)
        && sheet.edges <= 32
}

// Question 12. Nothing is written where the sheet or a list is not what a search needs.
pub fn explore(sheet: Sheet, nodes: &mut NodeLists, arcs: &mut ArcLists) -> Result<Size, Unexplored>
    ensures same_nodes { SameNodeLists nodes.old nodes.new }
    ensures same_arcs { SameArcLists arcs.old arcs.new }
    ensures answered { ExploreAnswered sheet (buffers_of nodes.old arcs.old) (buffers_of nodes.new arcs.new) result }
{
    if 0 < sheet.refusal {
        return Err(Unexplored::Malformed);
    }
    if !counts_in_range(&sheet) || !nodes.has_room() || !arcs.has_room() {
        return Err(Unexplored::Malformed);
    }
    search::search(sheet, nodes, arcs)
}
