// Work plans of Bench, of changes to it and of sheets with two clocks, four clocks or two locations: a line for each.
// Bench's bytes: edition, L, K and E; the location's map, cost rate (two bytes) and bound; the edge's map (two bytes), source, target, cost and
// reward (two bytes each), reset mask and lower byte.
#![tactic(auto)]

mod show;

use show::Answer;
use std::io;

const ACCEPTED: [(&str, &[u8]); 8] = [
    (
        "as given",
        b"\x01\x01\x01\x01\x05\x01\x00\x05\x0F\x00\x00\x00\x05\x00\x02\x00\x01\x02",
    ),
    (
        "bound 19 with lower byte 18",
        b"\x01\x01\x01\x01\x05\x01\x00\x19\x0F\x00\x00\x00\x05\x00\x02\x00\x01\x18",
    ),
    (
        "a second edge equal but for reward 3",
        b"\x01\x01\x01\x02\x05\x01\x00\x05\x0F\x00\x00\x00\x05\x00\x02\x00\x01\x02\x0F\x00\x00\x00\x05\x00\x03\x00\x01\x02",
    ),
    (
        "upper guard 03",
        b"\x01\x01\x01\x01\x05\x01\x00\x05\x4F\x00\x00\x00\x05\x00\x02\x00\x01\x02\x03",
    ),
    (
        "two clocks, both reset",
        b"\x01\x01\x02\x01\x0D\x01\x00\x05\x05\x0F\x00\x00\x00\x05\x00\x02\x00\x03\x02",
    ),
    (
        "four clocks, all reset",
        b"\x02\x01\x04\x01\x3D\x01\x00\x05\x05\x05\x05\x0F\x00\x00\x00\x05\x00\x02\x00\x0F\x02",
    ),
    // 1 unit in location 0, 2 in location 1, each left by an edge that resets the clock
    (
        "two locations in turn",
        b"\x01\x02\x01\x02\x05\x01\x00\x05\x05\x02\x00\x07\x0C\x00\x00\x01\x01\x02\x0E\x00\x01\x00\x03\x00\x01\x04",
    ),
    // edge 1 leads to location 1 at clock 1, edge 0 from there back to it at clock 2: the lasso comes to its cycle in the middle of a wait
    (
        "a cycle that ends with a wait",
        b"\x01\x02\x01\x02\x04\x19\x05\x01\x00\x05\x0E\x00\x01\x01\x02\x00\x01\x04\x08\x00\x00\x01\x02",
    ),
];

const STRICT: [(&str, &[u8]); 7] = [
    (
        "bound 04",
        b"\x01\x01\x01\x01\x05\x01\x00\x04\x0F\x00\x00\x00\x05\x00\x02\x00\x01\x02",
    ),
    (
        "lower byte 03",
        b"\x01\x01\x01\x01\x05\x01\x00\x05\x0F\x00\x00\x00\x05\x00\x02\x00\x01\x03",
    ),
    (
        "upper guard 04",
        b"\x01\x01\x01\x01\x05\x01\x00\x05\x4F\x00\x00\x00\x05\x00\x02\x00\x01\x02\x04",
    ),
    (
        "two clocks, bound 04 of clock 1",
        b"\x01\x01\x02\x01\x0D\x01\x00\x05\x04\x0F\x00\x00\x00\x05\x00\x02\x00\x03\x02",
    ),
    (
        "four clocks, bound 04 of clock 3",
        b"\x02\x01\x04\x01\x3D\x01\x00\x05\x05\x05\x04\x0F\x00\x00\x00\x05\x00\x02\x00\x0F\x02",
    ),
    (
        "four clocks, lower byte 03 of clock 3",
        b"\x02\x01\x04\x01\x3D\x01\x00\x05\x05\x05\x05\x4F\x00\x00\x00\x05\x00\x02\x00\x0F\x02\x03",
    ),
    (
        "a second location with bound 04, which no edge enters",
        b"\x01\x02\x01\x01\x05\x01\x00\x05\x04\x04\x0F\x00\x00\x00\x05\x00\x02\x00\x01\x02",
    ),
];

// A bound is strict in each of them, and another question comes first.
const REFUSED_BEFORE: [(&str, &[u8]); 5] = [
    (
        "bound 04 and a byte more",
        b"\x01\x01\x01\x01\x05\x01\x00\x04\x0F\x00\x00\x00\x05\x00\x02\x00\x01\x02\x00",
    ),
    (
        "bound 04 and the edge entered twice",
        b"\x01\x01\x01\x02\x05\x01\x00\x04\x0F\x00\x00\x00\x05\x00\x02\x00\x01\x02\x0F\x00\x00\x00\x05\x00\x02\x00\x01\x02",
    ),
    (
        "bound 00",
        b"\x01\x01\x01\x01\x05\x01\x00\x00\x0F\x00\x00\x00\x05\x00\x02\x00\x01\x02",
    ),
    (
        "bound 02",
        b"\x01\x01\x01\x01\x05\x01\x00\x02\x0F\x00\x00\x00\x05\x00\x02\x00\x01\x02",
    ),
    (
        "bound 04 and a second edge without reward and cost FC FF",
        b"\x01\x01\x01\x02\x05\x01\x00\x04\x0F\x00\x00\x00\x05\x00\x02\x00\x01\x02\x0D\x00\x00\x00\xFC\xFF\x01\x02",
    ),
];

fn case(rt: &impl Print, name: &str, sheet: &[u8]) -> io::Result<()> {
    let mut waits = [0u16; 2049];
    let mut edges = [0u16; 2049];
    let result = work::work(sheet, &mut waits, &mut edges);
    let answer = Answer {
        result,
        waits: &waits,
        edges: &edges,
    };
    println!(rt; "{name}: {answer}")
}

// As `bench_cases` has it: a crate for this loop alone would be no plainer.
fn all(rt: &impl Print, cases: &[(&str, &[u8])]) -> io::Result<()> {
    for (name, sheet) in cases {
        case(rt, name, sheet)?;
    }
    Ok(())
}

fn main(rt: HostRuntime) -> io::Result<()> {
    all(&rt, &ACCEPTED)?;
    all(&rt, &STRICT)?;
    all(&rt, &REFUSED_BEFORE)
}
