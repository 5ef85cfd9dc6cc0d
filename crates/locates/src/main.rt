// Runs Parameter Locates on the cases of standard input and writes what they answer. tests/model.py wrote the cases and the lines that must come out. A case is 32 bytes,
// a tag first, and for a locate the bytes of the log behind them; numbers go least significant byte first.
//   0                                an empty table; no line
//   1 identifier, length, 8 bytes    a frame is learned; no line
//   2 key                            a key is forgotten; no line
//   3 identifier, length, 8 bytes, own address, length of the log, start
//                                    what locate answers, its number and detail, and the whole log
//   4 key, edition                   gives the key that edition; no line
#![tactic(auto)]

use lines::{STDIN_FILENO, bytes, eight, end, first, four, front, more, two};
use lookup::{Table, WORDS};
use message::Key;

// The start, of eight bytes.
fn start(b: &[u8; 32]) -> usize {
    usize::from_le_bytes(eight(b, 17))
}

fn locate(t: &Table, b: &[u8; 32], log: &mut [u8]) {
    io::read_full(STDIN_FILENO, log);
    let d = eight(b, 6);
    let a = locate::locate(
        t,
        b[14],
        four(b[1], b[2], b[3], b[4]),
        b[5],
        &d,
        log,
        start(b),
    );
    first(a.number);
    more(a.detail);
    bytes(log);
    end();
}

// The log behind a case has room in a buffer.
fn lend(t: &Table, b: &[u8; 32]) {
    let mut log = io::buffer();
    let n = front(two(b[15], b[16]), &log);
    locate(t, b, &mut log[..n]);
}

// The key that a case names.
fn key_in(b: &[u8; 32]) -> Key {
    Key {
        source: b[1],
        destination: b[2],
        k: b[3],
    }
}

fn run(t: &mut Table, b: &[u8; 32]) {
    // Kept: a number, since the tag is a byte of the files that tests/model.py writes (tests/README.md).
    match b[0] {
        0 => table::empty(t),
        1 => {
            let d = eight(b, 6);
            table::learn(t, four(b[1], b[2], b[3], b[4]), b[5], &d);
        }
        2 => {
            table::forget(t, key_in(b));
        }
        4 => {
            edition::set_edition(t, key_in(b), four(b[4], b[5], b[6], b[7]));
        }
        _ => lend(t, b),
    }
}

// What the calls are lent stands here. A proved loop has to end, so it counts its turns, up to a number that no run uses up.
fn main() {
    let mut t = [0u64; WORDS];
    for b in (0..u64::MAX).map_while(|_| lines::next_case()) {
        run(&mut t, &b);
    }
}
