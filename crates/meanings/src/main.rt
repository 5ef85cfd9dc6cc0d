// Runs what numbers mean on the cases of standard input and writes a line for each. tests/model.py wrote the cases and the lines that must come out. A case is an SPN and
// a number, four bytes each, the least significant first; its line is the SPN's width, resolution, offset and kind, and the number's state and its value in thousandths.
#![tactic(auto)]

use lines::{STDOUT_FILENO, end, four, more};

// A further number of a line, with its sign.
fn signed(n: i64) {
    if n < 0 {
        io::write_all(STDOUT_FILENO, b" -");
        io::print_decimal(STDOUT_FILENO, n.unsigned_abs());
    } else {
        more(n.unsigned_abs());
    }
}

fn line(spn: u32, number: u32) {
    let meaning = meaning::meaning_of(spn);
    let scaled = meaning::scaled_of(spn, number);
    lines::first(meaning.width);
    more(meaning.resolution);
    signed(meaning.offset);
    more(meaning.kind);
    more(scaled.state);
    signed(scaled.value);
    end();
}

fn run(b: &[u8; 8]) {
    line(four(b[0], b[1], b[2], b[3]), four(b[4], b[5], b[6], b[7]));
}

// A proved loop has to end, so it counts its turns, up to a number that no run uses up.
fn main() {
    for b in (0..u64::MAX).map_while(|_| lines::next_case()) {
        run(&b);
    }
}
