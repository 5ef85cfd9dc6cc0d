// Runs the rooms on the cases of standard input and writes a line of numbers for each. tests/model.py wrote the cases and the
// lines that must come out. A case is a tag and 13 bytes, then the lists that it counts there; words go least significant byte
// first:
//   0 judgement, position            number and position of the case of Judgement
//   1 identifier                     the six fields, PGN, destination
//   2 identifier, length, 8 bytes    what decode answers, and on 0 the message
//   3 PGN                            its three bytes
//   4 SPN, rest                      its three bytes
//   5 three bytes                    rest, SPN, PGN
//   6 SPN                            1 and its row, or 0; its width
//   7 n, position, first-only        whether answer 7 refuses them (n = 64 and 65 are beyond the wire)
//   8 SPNs, starts, widths           number and position of the judgement
//   9 starts, widths, numbers        what pack answers, and the whole buffer, filled by a seed before the call
//   10 the same, and a payload       what read answers, and the whole room, which held those numbers before the call
//   11 SPN, edition                  its width in that edition
#![tactic(auto)]

mod lists;
mod rooms;

fn run(b: &[u8; 14]) {
    // Kept: a number, since the tag is a byte of the files that tests/model.py writes (tests/README.md).
    match b[0] {
        0..=7 | 11 => rooms::run(b),
        _ => lists::run(b),
    }
}

// A proved loop has to end, so it counts its turns, up to a number that no run uses up.
fn main() {
    for b in (0..u64::MAX).map_while(|_| lines::next_case()) {
        run(&b);
    }
}
