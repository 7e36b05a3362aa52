// The program *print_text*: reads a table from the standard input, and prints it as text. Of a refused table it prints nothing there: the number and the
// place of the refusal go to the standard error. Of an input of more than 65,536 bytes the first 65,536 are taken: no good table has more than 23,681, and
// each refusal lies before.
#![tactic(auto)]

use printing::{Stream, put_refusal};

// The most bytes of an input, and of a text.
const ROOM: usize = 65536;

fn print(table: &[u8]) {
    let mut text = [0; ROOM];
    let printed = text_printer::print_text(table, &mut text);
    if printed.result.number != 0 {
        put_refusal(printed.result);
    }
    if let Some(bytes) = text.get(..printed.length as usize) {
        Stream::output().put_bytes(bytes);
    }
}

fn main() {
    let mut space = [0; ROOM];
    let n = io::read_full(Stream::INPUT, &mut space);
    print(&space[..n]);
}
