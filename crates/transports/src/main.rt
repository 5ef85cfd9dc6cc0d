// Runs requests to send and packets on the cases of standard input and writes what they answer. tests/model.py wrote the cases and the lines that must come out. A case is 16
// bytes, a tag first; numbers go least significant byte first.
//   0                                fresh head words; no line
//   1 identifier, length, 8 bytes    what request answers: number and detail
//   2 identifier, length, 8 bytes    what packet answers: number, detail, PGN, and as many bytes of the lent buffer as the detail says
//   3, and 1,785 bytes behind it     the lent buffer holds these; no line
//   4                                the whole lent buffer
//   5 place, word of 8 bytes         writes a head word; no line
#![tactic(auto)]

use lines::{STDIN_FILENO, bytes, eight, end, first, four, front, more};
use transport::{BYTES, Bytes, Heads, MOST, Payload, WORDS};

fn request(heads: &mut Heads, b: &[u8; 16]) {
    let d = eight(b, 6);
    let a = transport::request(heads, four(b[1], b[2], b[3], b[4]), b[5], &d);
    first(a.number);
    more(a.detail);
    end();
}

// The first bytes of the lent buffer, as the end of a line.
fn show(out: &[u8], size: usize) {
    let mut page = [0u8; MOST];
    splice::copy_in(&mut page, out);
    let n = front(size, &page);
    bytes(&page[..n]);
    end();
}

fn packet(heads: &mut Heads, held: &mut Bytes, out: &mut Payload, b: &[u8; 16]) {
    let d = eight(b, 6);
    let r = transport::packet(heads, held, out, four(b[1], b[2], b[3], b[4]), b[5], &d);
    let a = r.answer;
    first(a.number);
    more(a.detail);
    more(r.pgn);
    show(out, a.detail as usize);
}

fn run(heads: &mut Heads, held: &mut Bytes, out: &mut Payload, b: &[u8; 16]) {
    // Kept: a number, since the tag is a byte of the files that tests/model.py writes (tests/README.md).
    match b[0] {
        0 => transport::fresh(heads),
        1 => request(heads, b),
        2 => packet(heads, held, out, b),
        3 => {
            io::read_full(STDIN_FILENO, out);
        }
        4 => show(out, MOST),
        _ => lines::put(heads, b[1] as usize, u64::from_le_bytes(eight(b, 2))),
    }
}

// What the calls are lent stands here. A proved loop has to end, so it counts its turns, up to a number that no run uses up.
fn main() {
    let mut heads = [0u64; WORDS];
    let mut held = [0u8; BYTES];
    let mut out = [0u8; MOST];
    for b in (0..u64::MAX).map_while(|_| lines::next_case()) {
        run(&mut heads, &mut held, &mut out, &b);
    }
}
