// The learned table: learning, forgetting, the held keys, and words written into it.
use crate::said::answer;
use lines::{STDOUT_FILENO, eight, end, four, more, two};
use lookup::Table;
use message::Key;

fn key(k: Key) {
    more(k.source);
    more(k.destination);
    more(k.k);
}

// The key that a case names.
pub(crate) fn key_in(b: &[u8; 14]) -> Key {
    Key {
        source: b[1],
        destination: b[2],
        k: b[3],
    }
}

// The held keys; 16 at most, so a walk that goes on past 20 is broken off.
// Kept: by the two calls that C has, and not by lookup::keys, since it is those that this program runs.
fn walk(t: &Table) {
    io::write_all(STDOUT_FILENO, b"keys");
    let mut at = lookup::first_key(t);
    for _ in 0..20 {
        let Some(k) = at else {
            break;
        };
        key(k);
        at = lookup::next_key(t, k);
    }
    end();
}

fn next(t: &Table, after: Key) {
    io::write_all(STDOUT_FILENO, b"next");
    if let Some(k) = lookup::next_key(t, after) {
        key(k);
    }
    end();
}

fn dump(t: &Table) {
    io::write_all(STDOUT_FILENO, b"words");
    for (i, word) in t.iter().enumerate() {
        if *word != 0 {
            more(i as u64);
            more(*word);
        }
    }
    end();
}

pub(crate) fn run(t: &mut Table, b: &[u8; 14]) {
    match b[0] {
        4 => answer(table::learn(t, four(b[1], b[2], b[3], b[4]), b[5], &eight(b, 6))),
        5 => answer(table::forget(t, key_in(b))),
        6 => walk(t),
        7 => next(t, key_in(b)),
        8 => lines::put(t, two(b[1], b[2]), u64::from_le_bytes(eight(b, 3))),
        _ => dump(t),
    }
}
