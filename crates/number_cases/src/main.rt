// The edges of numbers and words, run: each case of the standard input is worked out and printed on a line of its own.
// scripts/number_cases.py writes the cases, and the lines expected of them, from the rules alone.
//
// A case is 12 bytes: a kind, a number, and ten more. Kind 0 is the operation of that number and kind 1 the comparator, on two
// sides, each a tag (0: undefined) and four bytes of value. Kind 2 reads at that place of the case itself, and at the last place
// of all where the number is 255. Kind 3 writes the value of the four bytes from 2 on at that place of eight zeros.
#![tactic(auto)]

use printing::Stream;
use std::fmt::{self, Write};

const CASE_LEN: usize = 12;

// What an expression or a comparison came to.
#[derive(Clone, Copy)]
struct Shown<T>(Option<T>);

impl<T: fmt::Display> fmt::Display for Shown<T> {
    fn fmt<W: fmt::Write>(&self, f: &mut fmt::Formatter<W>) -> fmt::Result {
        match &self.0 {
            Some(value) => write!(f, "{value}"),
            None => write!(f, "undefined"),
        }
    }
}

fn side(tag: u8, v: i32) -> Option<i32> {
    if tag == 0 { None } else { Some(v) }
}

fn evaluate_case(out: &mut Stream, n: u8, left: Option<i32>, right: Option<i32>) -> fmt::Result {
    let value = Shown(numbers::evaluate(n, left, right));
    writeln!(
        out,
        "evaluate {n} {} {}: {value}",
        Shown(left),
        Shown(right)
    )
}

fn compare_case(out: &mut Stream, n: u8, left: Option<i32>, right: Option<i32>) -> fmt::Result {
    let truth = Shown(numbers::compare(n, left, right));
    writeln!(out, "compare {n} {} {}: {truth}", Shown(left), Shown(right))
}

fn read_case(out: &mut Stream, s: &[u8], number: u8) -> fmt::Result {
    let at = if number == 255 {
        usize::MAX
    } else {
        number as usize
    };
    let byte = wire::byte(s, at);
    let unsigned = wire::read_u32(s, at);
    let signed = wire::read_i32(s, at);
    writeln!(out, "read {at}: {byte} {unsigned} {signed}")
}

fn write_case(out: &mut Stream, number: u8, v: i32) -> fmt::Result {
    if 4 < number {
        return out.write("\n");
    }
    let at = number as usize;
    let mut words = [0; 8];
    wire::write_i32(&mut words, at, v);
    write!(out, "write {at} {v}:")?;
    for byte in words {
        write!(out, " {byte}")?;
    }
    writeln!(out, " {}", wire::i32_within(&words, at))
}

fn run_case(out: &mut Stream, s: &[u8]) -> fmt::Result {
    let number = wire::byte(s, 1);
    let left = side(wire::byte(s, 2), wire::read_i32(s, 3));
    let right = side(wire::byte(s, 7), wire::read_i32(s, 8));
    match wire::byte(s, 0) {
        0 => evaluate_case(out, number, left, right),
        1 => compare_case(out, number, left, right),
        2 => read_case(out, s, number),
        _ => write_case(out, number, wire::read_i32(s, 2)),
    }
}

fn run(out: &mut Stream) -> fmt::Result {
    let mut space = io::large_buffer();
    let n = io::read_full(Stream::INPUT, &mut space);
    for case in space[..n].chunks_exact(CASE_LEN) {
        run_case(out, case)?;
    }
    Ok(())
}

fn main() {
    let _ = run(&mut Stream::output());
}
