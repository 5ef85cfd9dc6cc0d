// Runs the calls with state on the cases of standard input and writes what they answer. tests/model.py wrote the cases and the lines that must
// come out. A case is a tag and 13 bytes, then the lists that it counts there; words go least significant byte first. An answer is written as
// its number, its detail, and the number and position of its judgement.
//   0                                fresh filters and an empty table; no line
//   1 call, from, to, word           what add, delete, renew or decide answers (calls 0 to 3)
//   2 call, 0, 0, word               the same for all 256 times 256 port numbers: a line for each answer but 15, then how often that was
//   3 place, word                    writes a word of the filters; no line
//   4 identifier, length, 8 bytes    what learn answers
//   5 key                            what forget answers
//   6                                the held keys, rising
//   7 key                            the next held key
//   8 place, word of 8 bytes         writes a word of the table; no line
//   9                                place and word of all words of the table that are not 0
//   10 key                           what judge answers, and how many parameters the key's map has
//   11 key, SPN                      what find answers, with position, start and width
//   12 key, numbers, buffer          what pack answers, and the whole buffer
//   13 key, room, payload, states    what read answers, and the two whole rooms
//   14 key, position                 what parameter_at answers, with SPN, start and width
//   15 chunks, buffer                what the listing of a log in chunks answers, and the whole buffer as text
//   16 key, edition                  what set_edition answers
//   17 key                           the key's edition
#![tactic(auto)]

mod asks;
mod editions;
mod filters;
mod keys;
mod logs;
mod said;

use lookup::Table;
use ports::Filters;

fn run(w: &mut Filters, t: &mut Table, b: &[u8; 14]) {
    // Kept: a number, since the tag is a byte of the files that tests/model.py writes (tests/README.md).
    match b[0] {
        0 => {
            ports::fresh(w);
            table::empty(t);
        }
        1..=3 => filters::run(w, b),
        4..=9 => keys::run(t, b),
        10..=14 => asks::run(t, b),
        15 => logs::run(t, b),
        _ => editions::run(t, b),
    }
}

// What the calls are lent stands here. A proved loop has to end, so it counts its turns, up to a number that no run uses up.
fn main() {
    let mut w = [0u32; ports::WORDS];
    let mut t = [0u64; lookup::WORDS];
    for b in (0..u64::MAX).map_while(|_| lines::next_case()) {
        run(&mut w, &mut t, &b);
    }
}
