// Runs the cases on standard input, a line each, with the sheet in hexadecimal.
// `check SHEET NAME`: the number that the sheet check answers, and the case's name.
// `step SHEET NODE CODE`: refusal, node, cost, reward and units of a single step.
#![tactic(auto)]

ghost use Rattle.std.specs.Prelude.{◌≡◌, length};

mod show;
mod text;

use show::{Checked, StepLine};
use std::io;

fn check_case(rt: &impl Print, case: &[u8]) -> io::Result<()> {
    let mut bytes = [0u8; 704];
    let n = text::unhex(case, &mut bytes);
    print!(rt; "{}", Checked(reader::check(&bytes[..n])))?;
    rt.write_all(&case[2 * n..])?;
    println!(rt)
}

fn unknown(rt: &impl Print) -> io::Result<()> {
    println!(rt; "neither check SHEET NAME nor step SHEET NODE CODE")
}

fn step_case(rt: &impl Print, case: &[u8]) -> io::Result<()> {
    let mut bytes = [0u8; 704];
    let n = text::unhex(case, &mut bytes);
    let Some((_, numbers)) = case[2 * n..].split_first() else {
        return unknown(rt);
    };
    let Some(end) = numbers.iter().position(|byte| *byte == b' ') else {
        return unknown(rt);
    };
    let number = text::decimal(&numbers[..end]);
    // `as` narrows where the number is proved to fit; try_from would give a Result that never fails.
    let code = (text::decimal(&numbers[end + 1..]) % 65536) as u16;
    println!(rt; "{}", StepLine(step::step(&bytes[..n], number, code)))
}

fn run(rt: &impl Print, line: &[u8]) -> io::Result<()> {
    if let Some(case) = line.strip_prefix(b"check ") {
        return check_case(rt, case);
    }
    if let Some(case) = line.strip_prefix(b"step ") {
        return step_case(rt, case);
    }
    unknown(rt)
}

// A line feed ends a line, and the last one may go without.
fn each_line(rt: &impl Print, s: &[u8]) -> io::Result<()> {
    for line in s.split_inclusive(|byte| *byte == b'\n') {
        run(rt, line.strip_suffix(b"\n").unwrap_or(line))?;
    }
    Ok(())
}

// For any N, so that no proof goes through a list of as many entries as the input has room for.
fn zeros<const N: usize>() -> [u8; N]
    ensures { length result ≡ N }
{
    [0; N]
}

fn main(rt: HostRuntime) -> io::Result<()> {
    let mut buffer: [u8; 524288] = zeros();
    let n = input::read_full(&mut rt.reader(), &mut buffer)?;
    each_line(&rt, &buffer[..n])
}
