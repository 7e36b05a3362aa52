// The program *read_text*: reads a text from the standard input, and writes the bytes of the table that it stands for. Of a refused text it writes nothing
// there: the number and the place of the refusal go to the standard error.
#![tactic(auto)]

use printing::{Stream, put_refusal};
use text_reader::LONGEST_TEXT;

fn read(text: &[u8]) {
    // Longer than any good table, so that the check says what is wrong with one that is too long.
    let mut table = [0; LONGEST_TEXT];
    let read = text_reader::read_text(text, &mut table);
    if read.result.number != 0 {
        put_refusal(read.result);
    }
    if let Some(bytes) = table.get(..read.length as usize) {
        Stream::output().put_bytes(bytes);
    }
}

fn main() {
    // A byte more than a text may have, so that a text that is too long is refused as one.
    let mut space = [0; LONGEST_TEXT + 1];
    let n = io::read_full(Stream::INPUT, &mut space);
    read(&space[..n]);
}
