// Question 18: whether a decoded sheet has no strict bound and no strict guard.
ghost use Rattle.std.specs.Prelude.{◌≡◌};
ghost use Rattle.nodes.specs.Decoded.{decoded_meaning};
ghost use Rattle.explore.specs.Explorable.{CountsInRange};
ghost use Rattle.schedules.specs.Closed.{is_closed};
ghost use Rattle.work.specs.PrivatePromises.{all_of_parity, bounds_odd, guards_even_odd};

use sheet::{Edge, Location, Sheet};

// Whether the bytes of the first clocks are all even, of parity 0, or all odd, of parity 1.
fn all_of_parity(bytes: [u8; 4], clocks: usize, parity: u8) -> bool
    ensures { result ≡ all_of_parity bytes clocks parity }
{
    bytes.iter().take(clocks).all(|byte| byte % 2 == parity)
}

// Whether the bounds of locations are all odd.
fn bounds_closed(locations: &[Location], clocks: usize) -> bool
    ensures { result ≡ bounds_odd locations.now clocks }
{
    locations
        .iter()
        .all(|location| all_of_parity(location.upper, clocks, 1))
}

// Whether the lower guards of edges are all even and the upper ones odd. An absent lower one is 0, an absent upper one 255.
fn guards_closed(edges: &[Edge], clocks: usize) -> bool
    ensures { result ≡ guards_even_odd edges.now clocks }
{
    edges.iter().all(|edge| {
        all_of_parity(edge.lower, clocks, 0) && all_of_parity(edge.upper, clocks, 1)
    })
}

pub(crate) fn is_closed(read: Sheet) -> bool
    requires { CountsInRange read.edition read.locations read.clocks read.edges }
    ensures { result ≡ is_closed (decoded_meaning read) }
{
    let clocks = usize::from(read.clocks);
    bounds_closed(&read.location[..usize::from(read.locations)], clocks)
        && guards_closed(&read.edge[..usize::from(read.edges)], clocks)
}
