// A simulated bridge of four ports (02, Req 09): a frame that came in at a port is offered to the three others, each answering by its filter and its queue, and a slot lets one frame leave
// a port. The counters of the twelve pairs and the queues of the four ports lie in words that the caller lends, beside the filters of the room `ports`
// (specs/Bridge.antt). Whatever these words hold, each call has its defined answer.
#![tactic(auto)]

ghost use Rattle.std.specs.Prelude.{◌≡◌, ◌<◌, ◌+◌, true, false, MatchOption};
ghost use Rattle.answers.specs.Answers.{in_numbers};
ghost use Rattle.counters.specs.Words.{noted_at};
ghost use Rattle.queue.specs.Row.{enters_at};
ghost use Rattle.bridge.specs.Bridge.{bridge, fresh_bridge, is_port, other, pair_from, passes_from, passed_by, answer_to, replied, counted_as, refused_from, offers, offered, slotted_as, slotted, standing_as, standing};

use answers::Answer;
use counters::{Counters, Fate};
use ports::Filters;

// The words of the counters, six for each of twelve pairs.
pub const COUNTERS: usize = 72;

// The words of the queues, 65 for each of four ports.
pub const QUEUES: usize = 260;

// Both as the caller lends them.
// Kept: two parameters of each call and no struct of both, since C lends them by two pointers (include/yendrolf.h).
pub type CounterWords = [u64; COUNTERS];

pub type QueueWords = [u64; QUEUES];

// The words of the counters of the three pairs from a port.
const COUNTERS_FROM: usize = 18;

// The words of their filters.
const FILTERS_FROM: usize = 102;

// The counters of a pair, and how many of its frames wait; all 0 with 15.
// Kept: the answer beside the rest and no `Result`, as include/yendrolf.h lends C one struct of both.
#[derive(Clone, Copy)]
pub struct Standing {
    pub answer: Answer,
    pub counters: Counters,
    pub waiting: u64,
}

// A port's number counted from 0, where it is a port: 1 to 4.
#[tactic(auto, unfolding(crate::specs::Bridge::is_port))]
fn index_of(port: u8) -> Option<usize>
    ensures { MatchOption result (is_port port ≡ false) (λ i. (is_port port ≡ true) × (i < 4) × (port ≡ i + 1)) }
{
    if (1 <= port) & (port <= 4) {
        return Some((port - 1) as usize);
    }
    None
}

// The way from a port to its k-th other, rising; both are counted from 0.
#[derive(Clone, Copy)]
struct Way {
    from: usize,
    k: usize,
    ghost among: { (from < 4) × (k < 3) },
}

// The port at its end, counted from 0.
fn end_of(way: Way) -> usize
    ensures { result ≡ other way.from way.k }
{
    if way.from <= way.k { way.k + 1 } else { way.k }
}

// What the port answers that a frame was offered to, or left.
pub fn answer_to(fate: Fate) -> Answer
    ensures { in_numbers result ≡ answer_to fate }
{
    match fate {
        Fate::Refused => answers::plainly(1),
        Fate::Filtered => answers::with_detail(0, 0),
        Fate::Turned => answers::plainly(26),
        Fate::Queued => answers::with_detail(0, 1),
        Fate::Sent => answers::with_detail(0, 1),
    }
}

// ---- a frame

// Whether the filter of a pair lets a PGN pass. The three pairs from a port follow each other, and their words are lent as a part, so that the compiler finds all three rows from one address.
fn lets_pass(w: &Filters, way: Way, pgn: u32) -> bool
    ensures { result ≡ passes_from w.now (way.from + 1) way.k pgn }
{
    let a = way.from * FILTERS_FROM;
    let e = a + FILTERS_FROM;
    pairs::lets_pass(&w[a..e], way.k, pgn)
}

// Counts what became of a frame at a pair, in the same way.
fn note(c: &mut CounterWords, way: Way, fate: Fate)
    ensures { c.new ≡ noted_at c.old (pair_from (way.from + 1) way.k) fate }
{
    let a = way.from * COUNTERS_FROM;
    let e = a + COUNTERS_FROM;
    counters::note(&mut c[a..e], way.k, fate);
}

// Offers a frame to the port at the end of a way, and counts what becomes of it: it is filtered, then queued where fewer than 64 wait there, else turned away. It becomes part of `offer`, where
// each way is known.
#[inline(always)]
fn offer_to(
    c: &mut CounterWords,
    q: &mut QueueWords,
    w: &Filters,
    way: Way,
    pgn: u32,
    word: u64,
) -> Fate
    ensures { replied result (bridge c.new q.new)
        ≡ counted_as (bridge c.old q.old) (pair_from (way.from + 1) way.k)
        (passed_by (passes_from w.now (way.from + 1) way.k pgn) (enters_at q.old (other way.from way.k) word) q.old) }
{
    if lets_pass(w, way, pgn) {
        if queue::enter(q, end_of(way), word) {
            note(c, way, Fate::Queued);
            return Fate::Queued;
        }
        note(c, way, Fate::Turned);
        return Fate::Turned;
    }
    note(c, way, Fate::Filtered);
    Fate::Filtered
}

// Refuses a frame at the three other ports, which is counted and nothing more.
fn refuse(c: &mut CounterWords, from: usize)
    requires { from < 4 }
    ensures { c.new ≡ refused_from c.old (from + 1) }
{
    note(c, Way { from, k: 0 }, Fate::Refused);
    note(c, Way { from, k: 1 }, Fate::Refused);
    note(c, Way { from, k: 2 }, Fate::Refused);
}

// Takes a frame that came in at a port: it is offered to the three other ports, rising, and the answer is what becomes of it at each; none where it was no port, which is answered 15.
// Its identifier is tested and its PGN found once for all three.
pub fn offer(
    c: &mut CounterWords,
    q: &mut QueueWords,
    w: &Filters,
    from: u8,
    id: u32,
) -> Option<(Fate, Fate, Fate)>
    ensures { offers result (bridge c.new q.new)
        ≡ offered (bridge c.old q.old) w.now from id }
{
    let port = index_of(from)?;
    if frame::GREATEST < id {
        refuse(c, port);
        return Some((Fate::Refused, Fate::Refused, Fate::Refused));
    }
    let pgn = frame::pgn(frame::split(id));
    let word = queue::word_of(from, id);
    let first = offer_to(c, q, w, Way { from: port, k: 0 }, pgn, word);
    let second = offer_to(c, q, w, Way { from: port, k: 1 }, pgn, word);
    let third = offer_to(c, q, w, Way { from: port, k: 2 }, pgn, word);
    Some((first, second, third))
}

// ---- a slot

// A slot of a port: 15 where it is none; 0 with detail 0 where no frame waits there; else the earliest of the highest priority leaves, and 0 with detail 1, and `from` and `id` are
// where it came from and its identifier. In the other cases they stay.
#[inline]
pub fn slot(
    c: &mut CounterWords,
    q: &mut QueueWords,
    port: u8,
    from: &mut u8,
    id: &mut u32,
) -> Answer
    ensures { slotted_as (in_numbers result) (bridge c.new q.new) from.new id.new
        ≡ slotted (bridge c.old q.old) port from.old id.old }
{
    let Some(i) = index_of(port) else {
        return answers::plainly(15);
    };
    let Some(word) = queue::leave(q, i) else {
        return answers::plainly(0);
    };
    let source = queue::from_in(word);
    let pair = ports::pair_of(source, port).unwrap_or(pairs::PAIRS);
    counters::note(c, pair, Fate::Sent);
    *from = source;
    *id = queue::id_in(word);
    answer_to(Fate::Sent)
}

// ---- what stands in the words

// The counters of a pair and what waits: 15, or 0.
pub fn pair(c: &CounterWords, q: &QueueWords, from: u8, to: u8) -> Standing
    ensures { standing_as result ≡ standing (bridge c.now q.now) from to }
{
    let i = ports::pair_of(from, to).unwrap_or(pairs::PAIRS);
    let counters = counters::at(c, i);
    if i < 12 {
        let waiting = queue::waiting_from(q, to as usize - 1, from);
        return Standing {
            answer: answers::plainly(0),
            counters,
            waiting: waiting as u64,
        };
    }
    Standing {
        answer: answers::plainly(15),
        counters,
        waiting: 0,
    }
}

// Makes counters that are all 0, and queues in which nothing waits.
pub fn fresh(c: &mut CounterWords, q: &mut QueueWords)
    ensures { bridge c.new q.new ≡ fresh_bridge }
{
    words::clear(c);
    words::clear(q);
}
