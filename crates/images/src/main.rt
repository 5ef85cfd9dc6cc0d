// Runs saving, loading and asking of images on the cases of standard input and writes what they answer. tests/model.py wrote the cases and the lines that must come
// out. A case is a tag and 13 bytes, then in two how many bytes stand behind it (4,096 at the most), then those: a buffer or an image. Numbers go least significant byte
// first.
//   0                                an empty table; no line
//   1 identifier, length, 8 bytes    learns; no line
//   2 key                            forgets; no line
//   3, and a buffer                  saves into it: number, detail, the size of the image, the whole buffer
//   4, and an image                  loads it: number; source, destination, k, n, judgement, position and edition of each key that is held then
//   5 key, and an image              asks it for the key: number, offset, length, edition, the body
//   6 row of 8 bytes, and an image   asks it for the row: number, source, destination, k, offset, length, edition, the body
//   7 key, edition                   gives the key that edition; no line
#![tactic(auto)]

use lines::{STDIN_FILENO, bytes, eight, end, first, four, front, more, two};
use lookup::{Table, WORDS};
use message::Key;

fn saved(t: &Table, out: &mut [u8]) {
    let a = save::save(t, out);
    first(a.number);
    more(a.detail);
    more(save::size(t) as u64);
    bytes(out);
    end();
}

// A key as the listing has it, and its edition.
fn judged(t: &Table, key: Key) {
    let a = ask::judge(t, key);
    let j = a.judgement;
    more(key.source);
    more(key.destination);
    more(key.k);
    more(ask::count(t, key));
    more(answers::number_of(j));
    more(answers::position_of(j));
    more(lookup::edition_of(t, key));
}

// The held keys behind the answer.
fn loaded(t: &mut Table, image: &[u8]) {
    let a = load::load(t, image);
    first(a.number);
    for key in lookup::keys(t) {
        judged(t, key);
    }
    end();
}

fn asked(image: &[u8], key: Key) {
    let a = contents::asked(image, key);
    let listed = contents::row_of(image, key);
    first(a.number);
    more(listed.offset as u64);
    more(listed.size as u64);
    more(listed.edition);
    bytes(contents::body(image, key));
    end();
}

fn row(image: &[u8], i: usize) {
    let a = contents::row_asked(image, i);
    let listed = contents::row(image, i);
    let key = contents::row_key(image, i);
    first(a.number);
    more(key.source);
    more(key.destination);
    more(key.k);
    more(listed.offset as u64);
    more(listed.size as u64);
    more(listed.edition);
    bytes(contents::row_body(image, i));
    end();
}

// The key that a case names.
fn key_in(b: &[u8; 16]) -> Key {
    Key {
        source: b[1],
        destination: b[2],
        k: b[3],
    }
}

fn row_number(b: &[u8; 16]) -> usize {
    usize::from_le_bytes(eight(b, 1))
}

fn with_bytes(t: &mut Table, b: &[u8; 16], behind: &mut [u8]) {
    io::read_full(STDIN_FILENO, behind);
    match b[0] {
        3 => saved(t, behind),
        4 => loaded(t, behind),
        5 => asked(behind, key_in(b)),
        _ => row(behind, row_number(b)),
    }
}

// The bytes behind a case have room in a buffer.
fn lend(t: &mut Table, b: &[u8; 16]) {
    let mut buffer = io::buffer();
    let n = front(two(b[14], b[15]), &buffer);
    with_bytes(t, b, &mut buffer[..n]);
}

fn run(t: &mut Table, b: &[u8; 16]) {
    // Kept: a number, since the tag is a byte of the files that tests/model.py writes (tests/README.md).
    match b[0] {
        0 => table::empty(t),
        1 => {
            let d = eight(b, 6);
            table::learn(t, four(b[1], b[2], b[3], b[4]), b[5], &d);
        }
        2 => {
            table::forget(t, key_in(b));
        }
        7 => {
            edition::set_edition(t, key_in(b), four(b[4], b[5], b[6], b[7]));
        }
        _ => lend(t, b),
    }
}

// A proved loop has to end, so it counts its turns, up to a number that no run uses up.
fn main() {
    let mut t = [0u64; WORDS];
    table::empty(&mut t);
    for b in (0..u64::MAX).map_while(|_| lines::next_case()) {
        run(&mut t, &b);
    }
}
