// Answers a Parameter Locate (002, 5.3.2; 02, Req 03): a tester asks where a parameter stands, and every map of our own address that is usable by its key's edition and has
// it answers with the Configuration Identification Message of that position, laid as a record into the caller's log. The learned table is lent as words; whatever they
// hold, the call has its defined answer and leaves them.
#![tactic(auto)]

ghost use Rattle.std.specs.Prelude.{◌≡◌, true, false, ◌+◌, ◌*◌, ◌≤◌, ltb, length, take, cond, MatchOption};
ghost use Rattle.answers.specs.Answers.{outcome, in_numbers, plain, done};
ghost use Rattle.text.specs.Text.{page, put, put_all};
ghost use Rattle.open.specs.Open.{width_for};
ghost use Rattle.keyrow.specs.Row.{form_word};
ghost use Rattle.keyrow.specs.View.{head_of};
ghost use Rattle.lookup.specs.View.{map_in, row_for};
ghost use Rattle.written.specs.Written.{record_of};
ghost use Rattle.locate.specs.Locate.{spn_asked, is_ours, tells, located, located_by};
ghost use Rattle.ask.specs.Ask.{position_of};
ghost use Rattle.locate.specs.Parts.{mentioned, message_at, pieces_of, laid_out};

use answers::Answer;
use frame::Three;
use keyrow::{CELLS, FORM, ROW_WORDS};
use lookup::{ROWS, Table};
use message::{Head, Key, Message, Place};
use record::SIZE;

// The PF of a Parameter Locate's PGN, 44800.
const PARAMETER_LOCATE: u8 = 175;

// The address of everybody.
const EVERYBODY: u8 = 255;

// What stands behind the messages that are told.
const NO_MESSAGE: Message = Message {
    key: Key {
        source: 0,
        destination: 0,
        k: 0,
    },
    head: Head {
        n: 0,
        proprietary: false,
        transport: false,
    },
    position: 0,
    place: Place { spn: 0, start: 0 },
};

// What is asked: an SPN, of our own address.
#[derive(Clone, Copy)]
struct Asked {
    own: u8,
    spn: u32,
}

// The messages of the keys that answer, rising: so many of the first.
// Kept: an array and how many are filled, as there is no heap here and 16 rows hold no more than 16.
#[derive(Clone, Copy)]
struct Told {
    messages: [Message; ROWS],
    count: u32,
}

// ---- the request

// Whether a request to this destination is one to us.
fn is_ours(own: u8, destination: u8) -> bool
    ensures { result ≡ is_ours own destination }
{
    (destination == own) | (destination == EVERYBODY)
}

// The SPN that is asked for; the bits that it leaves in its third byte are ignored.
fn spn_asked(d: &[u8; 8]) -> u32
    ensures { result ≡ spn_asked d.now }
{
    frame::spn_of(Three {
        first: d[0],
        second: d[1],
        third: d[2],
    })
}

// ---- looking

// Whether some cell of a key's row has the SPN. No map has an SPN that its row has not, and to look is far cheaper than to judge.
fn mentions(row: &[u64; ROW_WORDS], spn: u32) -> bool
    ensures { result ≡ mentioned row.now spn }
{
    for i in CELLS..ROW_WORDS {
        if keyrow::spn_of(row[i]) == spn {
            return true;
        }
    }
    false
}

// The position at which a key answers: its source is our own address, its map is usable, and the SPN has that position there.
fn position_told(t: &Table, asked: Asked, key: Key) -> Option<u8>
    ensures { MatchOption result (tells (width_for t.now key) asked.own asked.spn key (map_in t.now key) ≡ false)
        (λ p. (tells (width_for t.now key) asked.own asked.spn key (map_in t.now key) ≡ true)
        × (p ≡ position_of (width_for t.now key) (map_in t.now key) asked.spn)) }
{
    if key.source != asked.own {
        return None;
    }
    let Some(row) = lookup::row_of(t, key) else {
        return None;
    };
    if !mentions(row, asked.spn) {
        return None;
    }
    let found = ask::find(t, key, asked.spn);
    if found.position == 0 { // a refusal
        return None;
    }
    Some(found.position)
}

// n and the flags as the key's row has them.
fn head_of(t: &Table, key: Key) -> Head
    ensures { result ≡ head_of (form_word (row_for t.now key)) }
{
    match lookup::row_of(t, key) {
        Some(row) => keyrow::head_of(row[FORM]),
        None => keyrow::head_of(0),
    }
}

// The message of a key that has the SPN at a position.
fn message_at(t: &Table, asked: Asked, key: Key, position: u8) -> Message
    ensures { result ≡ message_at (width_for t.now key) t.now asked.spn key position }
{
    let head = head_of(t, key);
    let there = ask::parameter_at(t, key, position);
    Message {
        key,
        head,
        position,
        place: Place {
            spn: asked.spn,
            start: there.start,
        },
    }
}

// Looks at every held key once.
fn look_all(t: &Table, asked: Asked) -> Told
    ensures { (take result.count result.messages ≡ located (width_for t.now) t.now asked.own asked.spn)
        × (result.count ≡ length (located (width_for t.now) t.now asked.own asked.spn)) × (result.count ≤ 16) }
{
    let mut messages = [NO_MESSAGE; ROWS];
    let mut count = 0;
    for key in lookup::keys(t) {
        if let Some(position) = position_told(t, asked, key) {
            messages[count as usize] = message_at(t, asked, key, position);
            count += 1;
        }
    }
    Told { messages, count }
}

// Whether a log of so many bytes is too short for `count` records from `start` on.
fn is_short(size: usize, start: usize, count: u32) -> bool
    ensures { result ≡ ltb size (start + 13 * count) }
{
    if size < start {
        return true;
    }
    (size - start) / SIZE < count as usize
}

// ---- laying

// Lays the record of a message at `at`, into the part of the log that starts there, and says where the next one goes; where there is no room, nothing is laid.
fn put_record(log: &mut [u8], at: usize, m: Message) -> usize
    ensures { page result log.new ≡ put log.old at (record_of m) }
{
    if log.len() < at {
        return at;
    }
    let answer = written::write(&mut log[at..], m);
    if answer.number == 0 {
        return at + SIZE;
    }
    at
}

// Lays the records of the messages.
fn put_all(messages: &[Message], log: &mut [u8], start: usize) -> usize
    ensures { page result log.new ≡ put_all (page start log.old) (pieces_of messages.now) }
{
    let mut at = start;
    for m in messages {
        at = put_record(log, at, *m);
    }
    at
}

// ---- the answers

// To a request that is not ours, as to one for an SPN nobody sends: no message, and 13 where the log ends before `start`.
fn answer_none(size: usize, start: usize) -> Answer
    ensures { in_numbers result ≡ cond (ltb size start) (plain 13) (done 0) }
{
    if size < start {
        return answers::plainly(13);
    }
    answers::with_detail(0, 0)
}

// To a request that is ours: each key is judged once and counted, and the records are written where there is room for all of them.
fn answer_all(t: &Table, asked: Asked, log: &mut [u8], start: usize) -> Answer
    ensures { outcome (in_numbers result) log.new ≡ laid_out (located (width_for t.now) t.now asked.own asked.spn) log.old start }
{
    let told = look_all(t, asked);
    let messages = told.messages;
    let count = told.count;
    if is_short(log.len(), start, count) { // before the first byte is written
        return answers::plainly(13);
    }
    put_all(&messages[..count as usize], log, start);
    answers::with_detail(0, count)
}

// Answers a frame that may be a Parameter Locate: 1, 2, 3, 24, 13, else 0 with the count of the records that it has laid into `log` from byte `start` on. `own` is our
// own address. Every test is made before the first byte is written; no other byte of the log changes.
pub fn locate(
    t: &Table,
    own: u8,
    id: u32,
    len: u8,
    d: &[u8; 8],
    log: &mut [u8],
    start: usize,
) -> Answer
    ensures { outcome (in_numbers result) log.new
        ≡ located_by (width_for t.now) t.now own id len d.now log.old start }
{
    let f = frame::split(id);
    if let Some(fault) = message::served_fault(PARAMETER_LOCATE, id, len, f) {
        return answers::plainly(u8::from(fault));
    }
    if d[7] != 0 { // another command
        return answers::plainly(24);
    }
    if is_ours(own, frame::destination(f)) {
        let spn = spn_asked(d);
        let asked = Asked { own, spn };
        return answer_all(t, asked, log, start);
    }
    answer_none(log.len(), start)
}
