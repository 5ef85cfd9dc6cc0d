// A day replayed through the bridge (02, Req 09): each record of a trace is a frame, a slot or a command of the fitter, and what came of them is written as text. The trace comes in chunks of
// any size, cut anywhere: `start`, then `feed` for each chunk, then `finish`. Counters, queues and filters are lent by the caller, and nothing else is kept but the tally.
#![tactic(auto)]

ghost use Rattle.std.specs.Prelude.{◌≡◌};
ghost use Rattle.answers.specs.Answers.{outcome, in_numbers};
ghost use Rattle.text.specs.Page.{Laid};
ghost use Rattle.text.specs.Text.{page, put_all};
ghost use Rattle.record.specs.Sized.{left_by, over_by};
ghost use Rattle.bridge.specs.Bridge.{bridge, standing_as, standing};
ghost use Rattle.replaying.specs.Counts.{with_frame, with_slot, with_command, with_other};
ghost use Rattle.replaying.specs.Feed.{slot_words, state, played, step, started, tally_of, fed, feeding};
ghost use Rattle.replaying.specs.Lines.{six_of, line_of, kinds_of, last_line, pair_line, three_lines, pieces_of, finished};

use answers::Answer;
use bridge::{CounterWords, QueueWords, Standing};
use counters::Counters;
use ports::Filters;
use text::Page;
use trace::{Entry, SIZE};

// So many bytes hold any text of a replay (proofs/Widths.antt).
pub const PAGE: usize = 2304;

// What is counted of a trace's records, each modulo 2^64.
// Kept: `repr(C)`, as firmware hands the counts and the tally to C as they are.
#[repr(C)]
#[derive(Clone, Copy)]
pub struct Counts {
    pub events: u64, // all records
    pub frames: u64,
    pub slots: u64,
    pub commands: u64,
    pub refused: u64, // those of the commands that were refused
    pub other: u64, // records that are none of these
}

// Kept: beside feeding's tally, which has other counts, as C has each as a struct of its own.
// What is kept from chunk to chunk: the counts, and the first `left` bytes of a record that is not whole yet, with 0 behind them.
#[repr(C)]
#[derive(Clone, Copy)]
pub struct Tally {
    pub counts: Counts,
    pub left: usize,
    pub carry: [u8; SIZE],
}

// ---- counts

// Kept: the four that follow differ in the field that they count, and a field is nothing that could be handed over.

// One record more, a frame.
fn with_frame(k: Counts) -> Counts
    ensures { result ≡ with_frame k }
{
    Counts {
        events: k.events.wrapping_add(1),
        frames: k.frames.wrapping_add(1),
        ..k
    }
}

// A slot.
fn with_slot(k: Counts) -> Counts
    ensures { result ≡ with_slot k }
{
    Counts {
        events: k.events.wrapping_add(1),
        slots: k.slots.wrapping_add(1),
        ..k
    }
}

// A command that was answered with this number.
fn with_command(k: Counts, number: u8) -> Counts
    ensures { result ≡ with_command k number }
{
    Counts {
        events: k.events.wrapping_add(1),
        commands: k.commands.wrapping_add(1),
        refused: k.refused.wrapping_add(u64::from(number != 0)),
        ..k
    }
}

// None of these.
fn with_other(k: Counts) -> Counts
    ensures { result ≡ with_other k }
{
    Counts {
        events: k.events.wrapping_add(1),
        other: k.other.wrapping_add(1),
        ..k
    }
}

// ---- records

// A slot of a port; who left is not asked.
fn let_go(c: &mut CounterWords, q: &mut QueueWords, port: u8)
    ensures { bridge c.new q.new ≡ slot_words (bridge c.old q.old) port }
{
    let mut from = 0;
    let mut id = 0;
    bridge::slot(c, q, port, &mut from, &mut id);
}

// What an entry does to the bridge or the filters, and its count.
fn play(c: &mut CounterWords, q: &mut QueueWords, w: &mut Filters, k: Counts, e: Entry) -> Counts
    ensures { state (bridge c.new q.new) w.new result
        ≡ played (state (bridge c.old q.old) w.old k) e }
{
    match e {
        Entry::Frame { port, id } => {
            bridge::offer(c, q, w, port, id);
            with_frame(k)
        }
        Entry::Slot { port } => {
            let_go(c, q, port);
            with_slot(k)
        }
        Entry::Add { from, to, pgn } => {
            let a = ports::add(w, from, to, pgn);
            with_command(k, a.number)
        }
        Entry::Delete { from, to, pgn } => {
            let a = ports::delete(w, from, to, pgn);
            with_command(k, a.number)
        }
        Entry::Renew { from, to, mode } => {
            let a = ports::renew(w, from, to, mode);
            with_command(k, a.number)
        }
        Entry::Other => with_other(k),
    }
}

// The whole records of a slice, one after another.
fn all(c: &mut CounterWords, q: &mut QueueWords, w: &mut Filters, k: Counts, s: &[u8]) -> Counts
    ensures { state (bridge c.new q.new) w.new result
        ≡ over_by step 14 (state (bridge c.old q.old) w.old k) s.now }
{
    let (records, _) = s.as_chunks::<SIZE>();
    let mut counts = k;
    for r in records {
        counts = play(c, q, w, counts, trace::read(r));
    }
    counts
}

// ---- chunks

// The counts, and the bytes of a cut last record.
fn tally_of(counts: Counts, s: &[u8]) -> Tally
    ensures { result ≡ tally_of counts (left_by 14 s.now) }
{
    let (_, cut) = s.as_chunks::<SIZE>();
    let carry = record::joined(b"", cut);
    Tally {
        counts,
        left: cut.len(),
        carry,
    }
}

// Nothing read yet.
pub fn start() -> Tally
    ensures { result ≡ started }
{
    let counts = Counts {
        events: 0,
        frames: 0,
        slots: 0,
        commands: 0,
        refused: 0,
        other: 0,
    };
    tally_of(counts, b"")
}

// Takes the next chunk of a trace, of any size and cut anywhere.
pub fn feed(
    c: &mut CounterWords,
    q: &mut QueueWords,
    w: &mut Filters,
    s: Tally,
    chunk: &[u8],
) -> Tally
    ensures { fed (bridge c.new q.new) w.new result
        ≡ feeding (bridge c.old q.old) w.old s chunk.now }
{
    let old = s.carry;
    let counts = s.counts;
    let mut carry = [0u8; SIZE];
    let b = record::begin(&mut carry, &old, s.left, chunk);
    if b.left < SIZE {
        return Tally {
            counts,
            left: b.left,
            carry,
        };
    }
    let counts = all(c, q, w, counts, &carry);
    let taken = b.taken;
    let behind = &chunk[taken..];
    let counts = all(c, q, w, counts, behind);
    tally_of(counts, behind)
}

// ---- text

// Lays six counters, a blank behind each.
fn put_six(page: &mut Page, k: Counters)
    ensures { Laid page.old page.new (six_of k) }
{
    page.number(k.arrived, b" ");
    page.number(k.filtered, b" ");
    page.number(k.queued, b" ");
    page.number(k.sent, b" ");
    page.number(k.turned, b" ");
    page.number(k.refused, b" ");
}

// Lays the line of a pair.
fn put_line(page: &mut Page, from: u8, to: u8, s: Standing)
    ensures { Laid page.old page.new (line_of from to (standing_as s)) }
{
    page.number(from as u64, b" ");
    page.number(to as u64, b" ");
    let counters = s.counters;
    put_six(page, counters);
    page.number(s.waiting, b"\n");
}

// Lays the line of one pair, by what the words hold of it.
fn put_pair(c: &CounterWords, q: &QueueWords, page: &mut Page, from: u8, to: u8)
    ensures { Laid page.old page.new (pair_line (bridge c.now q.now) from to) }
{
    put_line(page, from, to, bridge::pair(c, q, from, to));
}

// Lays the lines of the three pairs from one port.
// Kept: three calls say in a line each what a loop over the others of a port would say in as many.
fn put_three(c: &CounterWords, q: &QueueWords, page: &mut Page, from: u8, x: u8, y: u8, z: u8)
    ensures { Laid page.old page.new (three_lines (bridge c.now q.now) from x y z) }
{
    put_pair(c, q, page, from, x);
    put_pair(c, q, page, from, y);
    put_pair(c, q, page, from, z);
}

// Lays how many records there were, and of each kind.
fn put_kinds(page: &mut Page, k: Counts)
    ensures { Laid page.old page.new (kinds_of k) }
{
    page.bytes(b"EVENTS ");
    page.number(k.events, b" FRAMES ");
    page.number(k.frames, b" SLOTS ");
    page.number(k.slots, b" COMMANDS ");
    page.number(k.commands, b" REFUSED ");
}

// Lays the last line.
fn put_last(page: &mut Page, k: Counts, left: usize)
    ensures { Laid page.old page.new (last_line k left) }
{
    put_kinds(page, k);
    page.number(k.refused, b" OTHER ");
    page.number(k.other, b" LEFT ");
    page.number(left as u64, b"\n");
}

// Lays the whole text: a header line, the twelve pairs rising, the counts.
fn put_replay(c: &CounterWords, q: &QueueWords, s: Tally, out: &mut [u8]) -> usize
    ensures { page result out.new ≡ put_all (page 0 out.old) (pieces_of (bridge c.now q.now) s) }
{
    let mut page = Page::new(out, 0);
    page.bytes(b"FROM TO ARRIVED FILTERED QUEUED SENT TURNED REFUSED WAITING\n");
    put_three(c, q, &mut page, 1, 2, 3, 4);
    put_three(c, q, &mut page, 2, 1, 3, 4);
    put_three(c, q, &mut page, 3, 1, 2, 4);
    put_three(c, q, &mut page, 4, 1, 2, 3);
    let counts = s.counts;
    let left = record::held(SIZE, s.left);
    put_last(&mut page, counts, left);
    page.at()
}

// Lays the text over the start of `out`: 0 with its length, or 13 and nothing written where `out` is too short. 2,304 bytes are never too short.
pub fn finish(c: &CounterWords, q: &QueueWords, s: Tally, out: &mut [u8]) -> Answer
    ensures { outcome (in_numbers result) out.new ≡ finished (bridge c.now q.now) s out.old }
{
    let mut page = [0u8; PAGE];
    let n = put_replay(c, q, s, &mut page);
    text::hand_out(out, &page[..n])
}
