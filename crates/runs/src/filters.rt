// The port pairs.
use crate::said::{answer, detail};
use answers::Answer;
use lines::{end, first, four, more, two};
use ports::Filters;

fn call(w: &mut Filters, what: u8, from: u8, to: u8, x: u32) -> Answer {
    match what {
        0 => ports::add(w, from, to, x),
        1 => ports::delete(w, from, to, x),
        2 => ports::renew(w, from, to, (x % 256) as u8),
        _ => ports::decide(w, from, to, x),
    }
}

// A line unless the answer is 15, and whether it is.
fn is_refused(from: u8, to: u8, a: Answer) -> bool {
    if a.number == 15 {
        return true;
    }
    first(from);
    more(to);
    more(a.number);
    detail(a);
    end();
    false
}

// The call from one port to all port numbers; one more for each answer 15.
fn from_port(w: &mut Filters, what: u8, from: u8, x: u32, before: u32) -> u32 {
    let mut refused = before;
    for to in 0..=u8::MAX {
        let a = call(w, what, from, to, x);
        if is_refused(from, to, a) {
            refused = refused.wrapping_add(1);
        }
    }
    refused
}

fn sweep(w: &mut Filters, what: u8, x: u32) {
    let mut refused = 0u32;
    for from in 0..=u8::MAX {
        refused = from_port(w, what, from, x, refused);
    }
    first(15u8);
    more(refused);
    end();
}

pub(crate) fn run(w: &mut Filters, b: &[u8; 14]) {
    let x = four(b[4], b[5], b[6], b[7]);
    match b[0] {
        1 => answer(call(w, b[1], b[2], b[3], x)),
        2 => sweep(w, b[1], x),
        _ => lines::put(w, two(b[1], b[2]), x),
    }
}
