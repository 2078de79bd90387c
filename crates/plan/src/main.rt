// Plans the sheet on standard input: prints `ratio p q` and `nodes n`, or `refused k`.
#![tactic(auto)]

mod show;

use show::Answer;
use std::io;

// One byte more than the longest sheet, so that a longer input is seen to be too long.
fn main(rt: HostRuntime) -> io::Result<()> {
    let mut sheet = [0u8; 657];
    let mut nodes = [0u64; 2048];
    let mut potentials = [0i64; 2048];
    let mut steps = [0u16; 2048];
    let n = input::read_full(&mut rt.reader(), &mut sheet)?;
    let answer = Answer(planner::plan(&sheet[..n], &mut nodes, &mut potentials, &mut steps));
    println!(rt; "{answer}")
}
