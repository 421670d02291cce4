// Runs `answer` of crates/shrinking over the block file of standard input for several words of a command line, and writes for each
// the bytes of the file and behind them those of the text. The last call has a byte of the check sum changed: no byte of a file may
// come out of it. With `nodes` in front the bytes are a node file: the same nodes, as they stand in the block, and then the block itself,
// which is none. Both files are made by tests/shrink_cases.py.
#![tactic(auto)]

use blocks::layout::{BLOCK, PLACE, PLACES};
use shrinking::answer::answer;

// The number of standard output.
const STDOUT: i32 = 1;

// More than any text has.
const TEXT: usize = 128 * naturals::WORDS;

// Where the seven nodes of the block end.
const NODES_END: usize = PLACES + 7 * PLACE;

// A byte of a block's check sum.
const SUM: usize = BLOCK - 4;

fn show(bytes: &[u8], end: usize) {
    if bytes.len() < end {
        return;
    }
    io::write_all(STDOUT, &bytes[..end]);
}

fn run(
    count: usize,
    first: &[u8],
    second: &[u8],
    third: &[u8],
    fourth: &[u8],
    fifth: &[u8],
    bytes: &[u8],
) {
    let mut file = [0u8; BLOCK];
    let mut text = [0u8; TEXT];
    let ends = answer(
        count, first, second, third, fourth, fifth, bytes, &mut file, &mut text,
    );
    show(&file, ends.file);
    show(&text, ends.text);
}

fn cuts(bytes: &[u8]) {
    // At most twelve cases. Taken for hexadecimal, 12 would be eighteen.
    run(3, b"suppress", b"cases", b"12", b"", b"", bytes);
    run(3, b"keep", b"size", b"4", b"", b"", bytes);
    // A zero in front.
    run(3, b"keep", b"size", b"04", b"", b"", bytes);
}

// It fits already: reduced, and as it is. Of three words the fourth is not looked at.
fn fits(bytes: &[u8]) {
    run(3, b"keep", b"size", b"9", b"as-is", b"", bytes);
    run(4, b"keep", b"size", b"9", b"as-is", b"", bytes);
    run(4, b"keep", b"size", b"9", b"asis", b"", bytes);
}

// Behind `nodes` the words mean what they mean without it.
fn nodes(bytes: &[u8]) {
    run(5, b"nodes", b"keep", b"size", b"9", b"as-is", bytes);
    run(4, b"nodes", b"suppress", b"size", b"4", b"as-is", bytes);
}

fn main() {
    let mut bytes = [0u8; BLOCK];
    io::read_full(0, &mut bytes);
    cuts(&bytes);
    fits(&bytes);
    nodes(&bytes[PLACES..NODES_END]);
    nodes(&bytes);
    bytes[SUM] = 0;
    run(3, b"keep", b"size", b"4", b"", b"", &bytes);
}
