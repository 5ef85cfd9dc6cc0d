// Runs the bridge's calls on the cases of standard input and writes what they answer. tests/model.py wrote the cases and the lines that must come out. A case is 16 bytes, a tag first;
// numbers go least significant byte first.
//   0                              fresh counters, queues and filters; no line
//   1 from, identifier             what offer answers: told, then number and detail of each of the three
//   2 port, from, identifier       what slot answers, and what from and identifier hold then, these before: number, detail, from, identifier
//   3 from, to                     what pair answers: number, six counters, how many wait
//   4, 5 from, to, PGN             adds, deletes: number
//   6 from, to, mode               renews: number
//   7 place, word of 8 bytes       writes a word of the counters; no line
//   8 place of 2, word of 8 bytes  writes a word of the queues; no line
//   9 queue                        the 65 words of a queue, from 0 on
#![tactic(auto)]

use answers::Answer;
use bridge::{COUNTERS, CounterWords, QUEUES, QueueWords};
use lines::{eight, end, first, four, more, numbers, two};
use ports::{Filters, WORDS};

// What one of the three ports answered.
fn port(a: Answer) {
    more(a.number);
    more(a.detail);
}

fn offer(c: &mut CounterWords, q: &mut QueueWords, w: &Filters, b: &[u8; 16]) {
    match bridge::offer(c, q, w, b[1], four(b[2], b[3], b[4], b[5])) {
        Some((x, y, z)) => {
            first(0u8);
            port(bridge::answer_to(x));
            port(bridge::answer_to(y));
            port(bridge::answer_to(z));
        }
        None => {
            first(15u8);
            port(answers::plainly(0));
            port(answers::plainly(0));
            port(answers::plainly(0));
        }
    }
    end();
}

fn slot(c: &mut CounterWords, q: &mut QueueWords, b: &[u8; 16]) {
    let mut from = b[2];
    let mut id = four(b[3], b[4], b[5], b[6]);
    let a = bridge::slot(c, q, b[1], &mut from, &mut id);
    first(a.number);
    more(a.detail);
    more(from);
    more(id);
    end();
}

fn pair(c: &CounterWords, q: &QueueWords, b: &[u8; 16]) {
    let s = bridge::pair(c, q, b[1], b[2]);
    let a = s.answer;
    let k = s.counters;
    first(a.number);
    numbers(&[
        k.arrived, k.filtered, k.queued, k.sent, k.turned, k.refused, s.waiting,
    ]);
    end();
}

fn command(w: &mut Filters, b: &[u8; 16]) {
    let pgn = four(b[3], b[4], b[5], 0);
    let a = match b[0] {
        4 => ports::add(w, b[1], b[2], pgn),
        5 => ports::delete(w, b[1], b[2], pgn),
        _ => ports::renew(w, b[1], b[2], b[3]),
    };
    first(a.number);
    end();
}

// The 65 words of a queue.
fn show(q: &QueueWords, k: usize) {
    let all = &q[..];
    if k < 4 {
        let a = k * 65;
        first(all[a]);
        numbers(&all[a + 1..a + 65]);
        end();
    }
}

fn run(c: &mut CounterWords, q: &mut QueueWords, w: &mut Filters, b: &[u8; 16]) {
    // Kept: a number, since the tag is a byte of the files that tests/model.py writes (tests/README.md).
    match b[0] {
        0 => {
            bridge::fresh(c, q);
            ports::fresh(w);
        }
        1 => offer(c, q, w, b),
        2 => slot(c, q, b),
        3 => pair(c, q, b),
        4..=6 => command(w, b),
        7 => lines::put(c, b[1] as usize, u64::from_le_bytes(eight(b, 2))),
        8 => lines::put(q, two(b[1], b[2]), u64::from_le_bytes(eight(b, 3))),
        9 => show(q, b[1] as usize),
        _ => (),
    }
}

// What the calls are lent stands here. A proved loop has to end, so it counts its turns, up to a number that no run uses up.
fn main() {
    let mut c = [0u64; COUNTERS];
    let mut q = [0u64; QUEUES];
    let mut w = [0u32; WORDS];
    for b in (0..u64::MAX).map_while(|_| lines::next_case()) {
        run(&mut c, &mut q, &mut w, &b);
    }
}
