// Runs the report of a hire on the cases of standard input and writes what it says. tests/model.py wrote the cases and the lines that must come out. A case is 16 bytes, a tag first; numbers
// go least significant byte first.
//   0 limit                             an empty table, all cells 0, nothing read, and this limit; no line
//   1 size of 2 bytes, and the chunk    these bytes are fed, at most 4,096; no line
//   2 key, position                     what line_of answers: number, detail, judgement and its position, SPN, read, valid, reserved, error, missing, least, greatest, sum
//   3                                   the whole report
//   4 place of 2 bytes, word            writes a word of the cells; no line
//   5 place of 2 bytes, word            writes a word of the table; no line
//   6 row                               the words of the cells of a row
#![tactic(auto)]

use feeding::Tally;
use lines::{STDIN_FILENO, eight, end, first, four, front, more, numbers, two};
use lookup::{Table, WORDS};
use message::Key;
use tally::Cells;

// The words of a row of cells.
const ROW: usize = 512;

// What is kept from case to case beside the words: the limit and the tally.
#[derive(Clone, Copy)]
struct Hire {
    limit: u32,
    tally: Tally,
}

fn start(t: &mut Table, acc: &mut Cells, limit: u32) -> Hire {
    table::empty(t);
    hire::fresh(acc);
    let tally = feeding::start();
    Hire { limit, tally }
}

fn feed_part(t: &mut Table, acc: &mut Cells, limit: u32, tally: Tally, chunk: &mut [u8]) -> Tally {
    io::read_full(STDIN_FILENO, chunk);
    hire::feed(t, acc, limit, tally, chunk)
}

fn feed(t: &mut Table, acc: &mut Cells, limit: u32, tally: Tally, size: usize) -> Hire {
    let mut buffer = io::buffer();
    let n = front(size, &buffer);
    let tally = feed_part(t, acc, limit, tally, &mut buffer[..n]);
    Hire { limit, tally }
}

// The key that a case names.
fn key_in(b: &[u8; 16]) -> Key {
    Key {
        source: b[1],
        destination: b[2],
        k: b[3],
    }
}

fn line(t: &Table, acc: &Cells, limit: u32, b: &[u8; 16]) {
    let l = hire::line_of(t, acc, limit, key_in(b), b[4]);
    let answer = l.answer;
    let judgement = answer.judgement;
    let cell = l.cell;
    first(answer.number);
    more(answer.detail);
    more(answers::number_of(judgement));
    more(answers::position_of(judgement));
    more(l.spn);
    numbers(&[
        cell.read,
        cell.valid,
        cell.reserved,
        cell.error,
        cell.missing,
    ]);
    numbers(&[cell.least, cell.greatest, cell.sum]);
    end();
}

// A word of eight bytes from byte 3 on.
fn word(b: &[u8; 16]) -> u64 {
    u64::from_le_bytes(eight(b, 3))
}

fn cells(acc: &Cells, row: u8) {
    let words = &acc[..];
    let from = row as usize % 16 * ROW;
    first(words[from]);
    numbers(&words[from + 1..from + ROW]);
    end();
}

fn run<P: Print>(out: &P, t: &mut Table, acc: &mut Cells, h: Hire, b: &[u8; 16]) -> Hire {
    let limit = h.limit;
    let tally = h.tally;
    // Kept: a number, since the tag is a byte of the files that tests/model.py writes (tests/README.md).
    match b[0] {
        0 => return start(t, acc, four(b[1], b[2], b[3], b[4])),
        1 => return feed(t, acc, limit, tally, two(b[1], b[2])),
        2 => line(t, acc, limit, b),
        3 => {
            let _ = reporting::write_all(out, t, acc, limit, tally);
        }
        4 => lines::put(acc, two(b[1], b[2]), word(b)),
        5 => lines::put(t, two(b[1], b[2]), word(b)),
        _ => cells(acc, b[1]),
    }
    Hire { limit, tally }
}

// What the calls are lent stands here. A proved loop has to end, so it counts its turns, up to a number that no run uses up.
fn main(rt: HostRuntime) {
    let mut t = [0u64; WORDS];
    let mut acc = [0u64; tally::WORDS];
    let mut h = start(&mut t, &mut acc, 0);
    for b in (0..u64::MAX).map_while(|_| lines::next_case()) {
        h = run(&rt, &mut t, &mut acc, h, &b);
    }
}
