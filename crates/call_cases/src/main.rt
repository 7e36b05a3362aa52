// Stored cases, run: each case of the standard input is one call, and its result is printed on a line of its own.
// The second engine (host/) writes the cases, and the lines expected of them.
//
// A case is its kind (`C` check, `R` run, `W` weigh, `F` find weights, `T` read text, `P` print text), five words of 32 bits (the lengths of table, goal and
// weights, the step limit, the length of the answer buffer), then table, goal and weights. A text stands where a table does, and the buffer that is written
// is the answer buffer. A single byte ends the cases.
#![tactic(auto)]

use model::{Answer, CallResult};
use printing::{Hex, Numbers, Stream};
use std::fmt::{self, Write};

// More cases than there are: a loop needs a number that falls, since nothing says that an input ends.
const MOST_CASES: u32 = 1000000;

// The longest buffer that a case may ask for, and the longest body of a case.
const MOST_ROOM: usize = 4096;

const LONGEST_BODY: usize = 65536;

// What each byte of the answer buffer holds before a run.
const FILL: u8 = 165;

// A case's header: its kind, the lengths of table, goal and weights, the step limit, and the length of the answer buffer.
#[derive(Clone, Copy)]
struct Header {
    kind: u8,
    table: u32,
    goal: u32,
    weights: u32,
    limit: u32,
    room: u32,
}

impl Header {
    const LEN: usize = 21;

    fn at(s: &[u8]) -> Header {
        Header {
            kind: wire::byte(s, 0),
            table: wire::read_u32(s, 1),
            goal: wire::read_u32(s, 5),
            weights: wire::read_u32(s, 9),
            limit: wire::read_u32(s, 13),
            room: wire::read_u32(s, 17),
        }
    }
}

fn check_case(out: &mut Stream, table: &[u8]) -> fmt::Result {
    let result = Numbers(table::check(table));
    writeln!(out, "C {result}")
}

fn weigh_case(out: &mut Stream, table: &[u8], weights: &[u8], goal: &[u8]) -> fmt::Result {
    let weighing = weighing::weigh(table, weights, goal);
    let result = Numbers(weighing.result);
    writeln!(out, "W {result} {} {}", weighing.weight, weighing.bound)
}

// The bytes that a call has written, and whether all others are as they were.
fn put_answer(out: &mut Stream, buffer: &[u8], end: usize) -> fmt::Result {
    let Some((written, rest)) = buffer.split_at_checked(end) else {
        return Ok(());
    };
    if !written.is_empty() {
        let bytes = Hex(written);
        write!(out, " {bytes}")?;
    }
    if rest.iter().all(|byte| *byte == FILL) {
        out.writeln(" keeps")
    } else {
        out.writeln(" changed")
    }
}

// A run lends as many bytes of the answer buffer as its case says; those behind are watched too.
fn run_case(out: &mut Stream, h: Header, table: &[u8], goal: &[u8]) -> fmt::Result {
    let mut buffer = [FILL; MOST_ROOM];
    let Some(answer) = buffer.get_mut(..h.room as usize) else {
        return out.writeln("answer buffer too long");
    };
    let r = engine::run(table, goal, h.limit, answer);
    let result = Numbers(r);
    write!(out, "R {result}")?;
    let end = if r.number == 0 {
        Answer::RECORD_LEN * r.stored as usize
    } else {
        0
    };
    put_answer(out, &buffer, end)
}

// A search for weights, with a buffer that holds these bytes before; the line ends with what it holds afterwards.
fn find_case(out: &mut Stream, table: &[u8], held: &[u8]) -> fmt::Result {
    let mut buffer = [FILL; MOST_ROOM];
    let Some(weights) = buffer.get_mut(..held.len()) else {
        return out.writeln("weights too long");
    };
    weights.copy_from_slice(held);
    let result = Numbers(finding_weights::find_weights(table, weights));
    write!(out, "F {result}")?;
    if !weights.is_empty() {
        let bytes = Hex(weights);
        write!(out, " {bytes}")?;
    }
    out.writeln("")
}

// What a call on texts gives: its result, how many bytes it has written, and the bytes.
fn put_written(
    out: &mut Stream,
    kind: char,
    r: CallResult,
    length: u32,
    buffer: &[u8],
) -> fmt::Result {
    let result = Numbers(r);
    write!(out, "{kind} {result} {length}")?;
    put_answer(out, buffer, length as usize)
}

// A text is read into as many bytes as its case says.
fn read_case(out: &mut Stream, h: Header, text: &[u8]) -> fmt::Result {
    let mut buffer = [FILL; MOST_ROOM];
    let Some(table) = buffer.get_mut(..h.room as usize) else {
        return out.writeln("table buffer too long");
    };
    let read = text_reader::read_text(text, table);
    put_written(out, 'T', read.result, read.length, &buffer)
}

// A table is printed into as many bytes as its case says.
fn print_case(out: &mut Stream, h: Header, table: &[u8]) -> fmt::Result {
    let mut buffer = [FILL; MOST_ROOM];
    let Some(text) = buffer.get_mut(..h.room as usize) else {
        return out.writeln("text buffer too long");
    };
    let printed = text_printer::print_text(table, text);
    put_written(out, 'P', printed.result, printed.length, &buffer)
}

// The call that the kind names, on a body of table, goal and weights.
fn call(out: &mut Stream, h: Header, body: &[u8]) -> fmt::Result {
    let Some((table, rest)) = body.split_at_checked(h.table as usize) else {
        return Ok(());
    };
    let Some((goal, weights)) = rest.split_at_checked(h.goal as usize) else {
        return Ok(());
    };
    match h.kind {
        b'C' => check_case(out, table),
        b'R' => run_case(out, h, table, goal),
        b'W' => weigh_case(out, table, weights, goal),
        b'F' => find_case(out, table, weights),
        b'T' => read_case(out, h, table),
        b'P' => print_case(out, h, table),
        _ => out.write("no such kind\n"),
    }
}

// Reads the next case into the space lent, and runs it. False where there is none, or where it is too long or cut short.
fn next_case(out: &mut Stream, space: &mut [u8]) -> Result<bool, fmt::Error> {
    let mut head = [0; Header::LEN];
    if io::read_full(Stream::INPUT, &mut head) < Header::LEN {
        return Ok(false);
    }
    let h = Header::at(&head);
    let long = h.table as usize + h.goal as usize + h.weights as usize;
    let Some(body) = space.get_mut(..long) else {
        out.writeln("case too long")?;
        return Ok(false);
    };
    if io::read_full(Stream::INPUT, body) < body.len() {
        out.writeln("case cut short")?;
        return Ok(false);
    }
    call(out, h, body)?;
    Ok(true)
}

fn run(out: &mut Stream) -> fmt::Result {
    let mut space = [0; LONGEST_BODY];
    for _ in 0..MOST_CASES {
        if !next_case(out, &mut space)? {
            break;
        }
    }
    Ok(())
}

fn main() {
    let _ = run(&mut Stream::output());
}
