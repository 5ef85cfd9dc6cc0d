// Questions about a key: judge and count, find, the parameter at a position, pack and read.
use crate::keys::key_in;
use crate::said::number;
use answers::Answer;
use ask::{Found, Parameter};
use lines::{STDIN_FILENO, bytes, end, four, front, more, numbers, room, two, words};
use lookup::Table;

fn judged(a: Answer, n: u8) {
    number(a);
    more(n);
    end();
}

fn found(f: Found) {
    number(f.answer);
    more(f.position);
    more(f.start);
    more(f.width);
    end();
}

fn parameter(p: Parameter) {
    number(p.answer);
    more(p.spn);
    more(p.start);
    more(p.width);
    end();
}

fn pack(t: &Table, b: &[u8; 14], given: &[u32], out: &mut [u8]) {
    io::read_full(STDIN_FILENO, out);
    number(ask::pack(t, key_in(b), given, out));
    bytes(out);
    end();
}

fn read(t: &Table, b: &[u8; 14], given: &mut [u32], payload: &mut [u8], states: &mut [u8]) {
    io::read_full(STDIN_FILENO, payload);
    io::read_full(STDIN_FILENO, states);
    number(ask::read(t, key_in(b), payload, given, states));
    numbers(given);
    bytes(states);
    end();
}

// A call with lists: how many numbers, how many payload bytes, and for read how many states; then those.
fn with_lists(t: &Table, b: &[u8; 14]) {
    let mut given = room();
    let mut payload = io::buffer();
    let g = words(b[4], &mut given);
    let n = front(two(b[5], b[6]), &payload);
    if b[0] == 12 {
        pack(t, b, &given[..g], &mut payload[..n]);
    } else {
        let mut states = [0u8; 72];
        let s = front(two(b[7], 0), &states);
        read(t, b, &mut given[..g], &mut payload[..n], &mut states[..s]);
    }
}

pub(crate) fn run(t: &Table, b: &[u8; 14]) {
    match b[0] {
        10 => judged(ask::judge(t, key_in(b)), ask::count(t, key_in(b))),
        11 => found(ask::find(t, key_in(b), four(b[4], b[5], b[6], b[7]))),
        14 => parameter(ask::parameter_at(t, key_in(b), b[4])),
        _ => with_lists(t, b),
    }
}
