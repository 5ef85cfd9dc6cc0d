// The box's calls for C (include/yendrolf.h declares them): each is one call of a room below, on memory that C lends as one pointer, and has that
// room's promise. The length of what is lent stands in the type, so it is C that answers for it; include/yendrolf.h makes it one block.
#![tactic(auto)]

ghost use Rattle.std.specs.Prelude.{◌≡◌, length};
ghost use Rattle.answers.specs.Answers.{outcome};
ghost use Rattle.keyrow.specs.Row.{key_of, key_number};
ghost use Rattle.table.specs.Learn.{learnt, empty_table};
ghost use Rattle.table.specs.Forget.{forgotten};
ghost use Rattle.lookup.specs.Next.{key_found, first_key, next_key};
ghost use Rattle.lookup.specs.View.{map_in, edition_in};
ghost use Rattle.edition.specs.Edition.{edited};
ghost use Rattle.judge.specs.Judge.{count_of};
ghost use Rattle.ask.specs.Ask.{packed_by, reads, read_by, found_in, found_by, standing_in, stands_by};
ghost use Rattle.open.specs.Open.{judged_by, width_for};
ghost use Rattle.image.specs.Write.{image_of, saved_into};
ghost use Rattle.image.specs.Read.{loaded};
ghost use Rattle.image.specs.Part.{row_entry, row_with};
ghost use Rattle.contents.specs.Rows.{entry_in};
ghost use Rattle.meaning.specs.Meaning.{meaning_of, scaled_of};
ghost use Rattle.locate.specs.Locate.{located_by};
ghost use Rattle.feeding.specs.Feed.{started, fed, feeding};
ghost use Rattle.listing.specs.Page.{finished};
ghost use Rattle.tally.specs.Cells.{empty_tally};
ghost use Rattle.hire.specs.Step.{hired, hiring};
ghost use Rattle.hire.specs.Line.{lined_in, line_in};
ghost use Rattle.pairs.specs.declared.Command.TheVariants.{Add, Delete, Renew};
ghost use Rattle.ports.specs.Filters.{commanded, decided, fresh_words};
ghost use Rattle.transport.specs.Rows.{memory, fresh_heads};
ghost use Rattle.transport.specs.Calls.{requested, arrived};
ghost use Rattle.bridge.specs.Bridge.{bridge, fresh_bridge, answers_of, answering, in_answers, offered, slotted_as, slotted, standing_as, standing};
ghost use Rattle.replaying.specs.Feed.{started as started_trace, fed as fed_trace, feeding as feeding_trace};
ghost use Rattle.replaying.specs.Lines.{finished as finished_trace};
ghost use Rattle.firmware.specs.Told.{row_to, version, said_to, told_of, held_of, finding_to, standing_to, line_to, brought_of, brought_to, answers_in, pair_to};

use answers::Answer;
use ask::{Found, Parameter};
use bridge::{CounterWords, QueueWords, Standing};
use contents::Listed;
use counters::{Counters, Fate};
use hire::Line;
use lookup::Table;
use meaning::{Meaning, Scaled};
use message::{Fault, Key};
use ports::Filters;
use tally::{Cell, Cells};
use transport::{Arrived, Bytes, Heads, Payload};

// An answer in 01's numbers: judgement and position are 0 but for 12 and for 0 of judging, where they are the detail.
#[repr(C)]
#[derive(Clone, Copy)]
pub struct Told {
    pub number: u32,
    pub detail: u32,
    pub judgement: u32,
    pub position: u32,
}

// An answer as C gets it.
fn in_c(a: Answer) -> Told
    ensures { result ≡ told_of a }
{
    let judgement = a.judgement;
    Told {
        number: a.number as u32,
        detail: a.detail,
        judgement: answers::number_of(judgement) as u32,
        position: answers::position_of(judgement) as u32,
    }
}

// What finding gives; position, start and width are 0 on a refusal.
#[repr(C)]
#[derive(Clone, Copy)]
pub struct Located {
    pub told: Told, // 11, 12, 18 or 0
    pub position: u32, // from 1
    pub start: u32, // its first payload bit, from 0
    pub width: u32, // in bits
}

// What finding gives, as C gets it.
fn found_in_c(found: Found) -> Located
    ensures { finding_to result ≡ found_in found }
{
    Located {
        told: in_c(found.answer),
        position: found.position as u32,
        start: found.start,
        width: found.width,
    }
}

// The parameter at a position; all 0 on a refusal, and the width 0 where the dictionary does not have the SPN.
#[repr(C)]
#[derive(Clone, Copy)]
pub struct Placed {
    pub told: Told, // 11, 18 or 0
    pub spn: u32,
    pub start: u32, // as of what finding gives
    pub width: u32,
}

// The parameter at a position, as C gets it.
fn placed_in_c(parameter: Parameter) -> Placed
    ensures { standing_to result ≡ standing_in parameter }
{
    Placed {
        told: in_c(parameter.answer),
        spn: parameter.spn,
        start: parameter.start,
        width: parameter.width,
    }
}

// A row of an image: its key and edition, and where its body begins and how long it is; all 0 on a refusal.
#[repr(C)]
#[derive(Clone, Copy)]
pub struct Row {
    pub told: Told, // 21, 22 or 0
    pub offset: usize, // of the body in the image
    pub length: usize, // of the body in bytes
    pub source: u32,
    pub destination: u32,
    pub k: u32,
    pub edition: u32, // 2004 or 2010
}

// A row of an image, as C gets it.
fn row_in_c(row: Listed) -> Row
    ensures { row_to result ≡ entry_in row }
{
    let key = row.key;
    Row {
        told: in_c(row.answer),
        offset: row.offset,
        length: row.size,
        source: key.source as u32,
        destination: key.destination as u32,
        k: key.k as u32,
        edition: row.edition,
    }
}

// What a packet is answered, and the PGN of the payload that it finished, 0 where it finished none.
#[repr(C)]
#[derive(Clone, Copy)]
pub struct Brought {
    pub told: Told,
    pub pgn: u32,
}

// What a packet is answered, as C gets it.
fn brought_in_c(came: Arrived) -> Brought
    ensures { result ≡ brought_of came }
{
    Brought {
        told: in_c(came.answer),
        pgn: came.pgn,
    }
}

// What a frame at a port is answered: 0 and what each of the three other ports says, rising; or 15, and zeros that are no answers.
#[repr(C)]
#[derive(Clone, Copy)]
pub struct Answered {
    pub told: Told,
    pub first: Told, // of the lowest other port
    pub second: Told,
    pub third: Told,
}

// What a frame at a port is answered, as C gets it.
fn answered_in_c(offered: Option<(Fate, Fate, Fate)>) -> Answered
    ensures { answers_in result ≡ answers_of offered }
{
    match offered {
        Some((x, y, z)) => Answered {
            told: in_c(answers::plainly(0)),
            first: in_c(bridge::answer_to(x)),
            second: in_c(bridge::answer_to(y)),
            third: in_c(bridge::answer_to(z)),
        },
        None => {
            let none = in_c(answers::plainly(0));
            Answered {
                told: in_c(answers::plainly(15)),
                first: none,
                second: none,
                third: none,
            }
        }
    }
}

// What is counted of a pair, and how many of its frames wait; all 0 on a refusal.
#[repr(C)]
#[derive(Clone, Copy)]
pub struct Pair {
    pub told: Told, // 15 or 0
    pub counters: Counters,
    pub waiting: u64, // queued less sent
}

// What is counted of a pair, as C gets it.
fn pair_in_c(standing: Standing) -> Pair
    ensures { pair_to result ≡ standing_as standing }
{
    let counters = standing.counters;
    Pair {
        told: in_c(standing.answer),
        counters,
        waiting: standing.waiting,
    }
}

// What the report of a hire says of a position of a key; all 0 on a refusal.
#[repr(C)]
#[derive(Clone, Copy)]
pub struct Counted {
    pub told: Told, // 11, 12, 25, 18 or 0
    pub cell: Cell, // what was counted of its numbers
    pub spn: u32, // the parameter that stands there
}

// A line of the report, as C gets it.
fn line_in_c(line: Line) -> Counted
    ensures { line_to result ≡ lined_in line }
{
    let cell = line.cell;
    Counted {
        told: in_c(line.answer),
        cell,
        spn: line.spn,
    }
}

// A held key, or four times 0. The fields are what the calls on a key take.
#[repr(C)]
#[derive(Clone, Copy)]
pub struct Held {
    pub held: u8, // 1, or 0 where there is no key
    pub source: u8,
    pub destination: u8,
    pub k: u8,
}

// A key as C gets it.
fn key_in_c(next: Option<Key>) -> Held
    ensures { result ≡ held_of (key_found next) }
{
    match next {
        Some(key) => Held {
            held: 1,
            source: key.source,
            destination: key.destination,
            k: key.k,
        },
        None => Held {
            held: 0,
            source: 0,
            destination: 0,
            k: 0,
        },
    }
}

// What is kept of a log from chunk to chunk, and what of a trace: those rooms' own tallies.
pub type Log = feeding::Tally;

pub type Trace = replaying::Tally;

// The version of these calls, for a caller to hold against that of its header.
#[unsafe(no_mangle)]
pub extern "C" fn yendrolf_version() -> u32
    ensures { result ≡ version }
{
    5
}

// ---- the learned table

// Makes an empty table of any words.
#[unsafe(no_mangle)]
pub extern "C" fn yendrolf_table_empty(t: &mut Table)
    ensures { t.new ≡ empty_table }
{
    table::empty(t)
}

// Learns from one frame. Most frames are of another PGN: those are answered here and go no further.
#[unsafe(no_mangle)]
pub extern "C" fn yendrolf_table_learn(t: &mut Table, id: u32, len: u8, d: &[u8; 8]) -> Told
    ensures { outcome (said_to result) t.new ≡ learnt t.old id len d.now }
{
    if let Some(Fault::OtherPgn) = message::frame_fault(id, len, frame::split(id)) {
        return in_c(answers::plainly(2));
    }
    in_c(table::learn(t, id, len, d))
}

// Forgets one key.
#[unsafe(no_mangle)]
pub extern "C" fn yendrolf_table_forget(t: &mut Table, source: u8, destination: u8, k: u8) -> Told
    ensures { outcome (said_to result) t.new ≡ forgotten t.old (key_number (key_of source destination k)) }
{
    let key = Key {
        source,
        destination,
        k,
    };
    in_c(table::forget(t, key))
}

// Gives a held key another edition of the dictionary.
#[unsafe(no_mangle)]
pub extern "C" fn yendrolf_table_set_edition(
    t: &mut Table,
    source: u8,
    destination: u8,
    k: u8,
    edition: u32,
) -> Told
    ensures { outcome (said_to result) t.new ≡ edited t.old (key_number (key_of source destination k)) edition }
{
    let key = Key {
        source,
        destination,
        k,
    };
    in_c(edition::set_edition(t, key, edition))
}

// The edition of a key, 2010 where it is not held.
#[unsafe(no_mangle)]
pub extern "C" fn yendrolf_table_edition(t: &Table, source: u8, destination: u8, k: u8) -> u32
    ensures { result ≡ edition_in t.now (key_of source destination k) }
{
    let key = Key {
        source,
        destination,
        k,
    };
    lookup::edition_of(t, key)
}

// The number of parameters of a key's map.
#[unsafe(no_mangle)]
pub extern "C" fn yendrolf_table_count(t: &Table, source: u8, destination: u8, k: u8) -> u32
    ensures { result ≡ count_of (map_in t.now (key_of source destination k)) }
{
    let key = Key {
        source,
        destination,
        k,
    };
    ask::count(t, key) as u32
}

// Judges a key's map.
#[unsafe(no_mangle)]
pub extern "C" fn yendrolf_table_judge(t: &Table, source: u8, destination: u8, k: u8) -> Told
    ensures { said_to result ≡ judged_by (width_for t.now (key_of source destination k)) (map_in t.now (key_of source destination k)) }
{
    let key = Key {
        source,
        destination,
        k,
    };
    in_c(ask::judge(t, key))
}

// Packs numbers by a key's map.
#[unsafe(no_mangle)]
pub extern "C" fn yendrolf_table_pack(
    t: &Table,
    source: u8,
    destination: u8,
    k: u8,
    numbers: &[u32],
    payload: &mut [u8],
) -> Told
    ensures { outcome (said_to result) payload.new
        ≡ packed_by (width_for t.now (key_of source destination k)) (map_in t.now (key_of source destination k)) numbers.now payload.old }
{
    let key = Key {
        source,
        destination,
        k,
    };
    in_c(ask::pack(t, key, numbers, payload))
}

// Reads a payload by a key's map, and lays the state of each number beside it.
#[unsafe(no_mangle)]
pub extern "C" fn yendrolf_table_read(
    t: &Table,
    source: u8,
    destination: u8,
    k: u8,
    payload: &[u8],
    numbers: &mut [u32],
    states: &mut [u8],
) -> Told
    ensures { reads (said_to result) numbers.new states.new
        ≡ read_by (width_for t.now (key_of source destination k)) (map_in t.now (key_of source destination k)) payload.now numbers.old states.old }
{
    let key = Key {
        source,
        destination,
        k,
    };
    let answer = ask::read(t, key, payload, numbers, states);
    in_c(answer)
}

// Finds an SPN in a key's map.
#[unsafe(no_mangle)]
pub extern "C" fn yendrolf_table_find(
    t: &Table,
    source: u8,
    destination: u8,
    k: u8,
    spn: u32,
) -> Located
    ensures { finding_to result ≡ found_by (width_for t.now (key_of source destination k)) (map_in t.now (key_of source destination k)) spn }
{
    let key = Key {
        source,
        destination,
        k,
    };
    found_in_c(ask::find(t, key, spn))
}

// The parameter at a position of a key's map, usable or not.
#[unsafe(no_mangle)]
pub extern "C" fn yendrolf_table_parameter_at(
    t: &Table,
    source: u8,
    destination: u8,
    k: u8,
    position: u8,
) -> Placed
    ensures { standing_to result ≡ stands_by (width_for t.now (key_of source destination k)) (map_in t.now (key_of source destination k)) position }
{
    let key = Key {
        source,
        destination,
        k,
    };
    placed_in_c(ask::parameter_at(t, key, position))
}

// The lowest held key.
#[unsafe(no_mangle)]
pub extern "C" fn yendrolf_table_first_key(t: &Table) -> Held
    ensures { result ≡ held_of (first_key t.now) }
{
    key_in_c(lookup::first_key(t))
}

// The lowest held key above the given one.
#[unsafe(no_mangle)]
pub extern "C" fn yendrolf_table_next_key(t: &Table, source: u8, destination: u8, k: u8) -> Held
    ensures { result ≡ held_of (next_key t.now (key_of source destination k)) }
{
    let key = Key {
        source,
        destination,
        k,
    };
    key_in_c(lookup::next_key(t, key))
}

// Answers a Parameter Locate: the records of our own address' maps that have the parameter, laid into `log` from byte `start` on.
#[unsafe(no_mangle)]
pub extern "C" fn yendrolf_table_locate(
    t: &Table,
    own: u8,
    id: u32,
    len: u8,
    d: &[u8; 8],
    log: &mut [u8],
    start: usize,
) -> Told
    ensures { outcome (said_to result) log.new
        ≡ located_by (width_for t.now) t.now own id len d.now log.old start }
{
    in_c(locate::locate(t, own, id, len, d, log, start))
}

// ---- an image of what was learned

// How many bytes the image of a table has.
#[unsafe(no_mangle)]
pub extern "C" fn yendrolf_table_image_size(t: &Table) -> usize
    ensures { result ≡ length (image_of t.now) }
{
    save::size(t)
}

// Lays the image of a table over the start of `image`.
#[unsafe(no_mangle)]
pub extern "C" fn yendrolf_table_save(t: &Table, image: &mut [u8]) -> Told
    ensures { outcome (said_to result) image.new ≡ saved_into t.now image.old }
{
    in_c(save::save(t, image))
}

// Loads an image into an empty table.
#[unsafe(no_mangle)]
pub extern "C" fn yendrolf_table_load(t: &mut Table, image: &[u8]) -> Told
    ensures { outcome (said_to result) t.new ≡ loaded t.old image.now }
{
    in_c(load::load(t, image))
}

// A row of an image by its number.
#[unsafe(no_mangle)]
pub extern "C" fn yendrolf_image_row(image: &[u8], row: usize) -> Row
    ensures { row_to result ≡ row_entry image.now row }
{
    row_in_c(contents::row(image, row))
}

// The row of a key.
#[unsafe(no_mangle)]
pub extern "C" fn yendrolf_image_body(image: &[u8], source: u8, destination: u8, k: u8) -> Row
    ensures { row_to result ≡ row_entry image.now (row_with image.now (key_of source destination k)) }
{
    let key = Key {
        source,
        destination,
        k,
    };
    row_in_c(contents::row_of(image, key))
}

// ---- what numbers mean

// Width, resolution, offset and kind of an SPN.
#[unsafe(no_mangle)]
pub extern "C" fn yendrolf_meaning(spn: u32) -> Meaning
    ensures { result ≡ meaning_of spn }
{
    meaning::meaning_of(spn)
}

// A number of an SPN in thousandths of its unit, with its state.
#[unsafe(no_mangle)]
pub extern "C" fn yendrolf_scaled(spn: u32, number: u32) -> Scaled
    ensures { result ≡ scaled_of spn number }
{
    meaning::scaled_of(spn, number)
}

// ---- the listing of a log

// Nothing read yet.
#[unsafe(no_mangle)]
pub extern "C" fn yendrolf_start_log() -> Log
    ensures { result ≡ started }
{
    feeding::start()
}

// Takes the next chunk of a log.
#[unsafe(no_mangle)]
pub extern "C" fn yendrolf_table_feed(t: &mut Table, log: Log, chunk: &[u8]) -> Log
    ensures { fed t.new result ≡ feeding t.old log chunk.now }
{
    feeding::feed(t, log, chunk)
}

// Lays the listing over the start of `text`.
#[unsafe(no_mangle)]
pub extern "C" fn yendrolf_table_finish(t: &Table, log: Log, text: &mut [u8]) -> Told
    ensures { outcome (said_to result) text.new ≡ finished t.now log text.old }
{
    in_c(listing::finish(t, log, text))
}

// ---- the report of a hire

// Nothing counted yet.
#[unsafe(no_mangle)]
pub extern "C" fn yendrolf_hire_fresh(acc: &mut Cells)
    ensures { acc.new ≡ empty_tally }
{
    hire::fresh(acc)
}

// Takes the next chunk of a log, and counts the payloads that are read.
#[unsafe(no_mangle)]
pub extern "C" fn yendrolf_hire_feed(
    t: &mut Table,
    acc: &mut Cells,
    limit: u32,
    log: Log,
    chunk: &[u8],
) -> Log
    ensures { hired t.new result acc.new
        ≡ hiring limit t.old acc.old log chunk.now }
{
    hire::feed(t, acc, limit, log, chunk)
}

// What the report says of a position of a key.
#[unsafe(no_mangle)]
pub extern "C" fn yendrolf_hire_line(
    t: &Table,
    acc: &Cells,
    limit: u32,
    source: u8,
    destination: u8,
    k: u8,
    position: u8,
) -> Counted
    ensures { line_to result ≡ line_in limit t.now acc.now (key_of source destination k) position }
{
    let key = Key {
        source,
        destination,
        k,
    };
    line_in_c(hire::line_of(t, acc, limit, key, position))
}

// ---- the filters

// Makes all filters fresh.
#[unsafe(no_mangle)]
pub extern "C" fn yendrolf_filters_fresh(w: &mut Filters)
    ensures { w.new ≡ fresh_words }
{
    ports::fresh(w)
}

// Adds a PGN to the list of one pair.
#[unsafe(no_mangle)]
pub extern "C" fn yendrolf_filters_add(w: &mut Filters, from: u8, to: u8, pgn: u32) -> Told
    ensures { outcome (said_to result) w.new ≡ commanded w.old from to (Add pgn) }
{
    in_c(ports::add(w, from, to, pgn))
}

// Deletes a PGN from the list of one pair.
#[unsafe(no_mangle)]
pub extern "C" fn yendrolf_filters_delete(w: &mut Filters, from: u8, to: u8, pgn: u32) -> Told
    ensures { outcome (said_to result) w.new ≡ commanded w.old from to (Delete pgn) }
{
    in_c(ports::delete(w, from, to, pgn))
}

// Sets the mode of one pair and empties its list.
#[unsafe(no_mangle)]
pub extern "C" fn yendrolf_filters_renew(w: &mut Filters, from: u8, to: u8, mode: u8) -> Told
    ensures { outcome (said_to result) w.new ≡ commanded w.old from to (Renew mode) }
{
    in_c(ports::renew(w, from, to, mode))
}

// Decides on a frame from one port to another by its identifier.
#[unsafe(no_mangle)]
pub extern "C" fn yendrolf_filters_decide(w: &Filters, from: u8, to: u8, id: u32) -> Told
    ensures { said_to result ≡ decided w.now from to id }
{
    in_c(ports::decide(w, from, to, id))
}

// ---- the bridge

// Makes all counters 0, and all queues empty.
#[unsafe(no_mangle)]
pub extern "C" fn yendrolf_bridge_fresh(c: &mut CounterWords, q: &mut QueueWords)
    ensures { bridge c.new q.new ≡ fresh_bridge }
{
    bridge::fresh(c, q)
}

// Offers a frame that came in at a port to the three others.
#[unsafe(no_mangle)]
pub extern "C" fn yendrolf_bridge_offer(
    c: &mut CounterWords,
    q: &mut QueueWords,
    w: &Filters,
    from: u8,
    id: u32,
) -> Answered
    ensures { answering (answers_in result) (bridge c.new q.new)
        ≡ in_answers (offered (bridge c.old q.old) w.now from id) }
{
    answered_in_c(bridge::offer(c, q, w, from, id))
}

// A slot of a port: the frame that is next leaves.
#[unsafe(no_mangle)]
pub extern "C" fn yendrolf_bridge_slot(
    c: &mut CounterWords,
    q: &mut QueueWords,
    port: u8,
    from: &mut u8,
    id: &mut u32,
) -> Told
    ensures { slotted_as (said_to result) (bridge c.new q.new) from.new id.new
        ≡ slotted (bridge c.old q.old) port from.old id.old }
{
    in_c(bridge::slot(c, q, port, from, id))
}

// What is counted of a pair, and what waits.
#[unsafe(no_mangle)]
pub extern "C" fn yendrolf_bridge_pair(c: &CounterWords, q: &QueueWords, from: u8, to: u8) -> Pair
    ensures { pair_to result ≡ standing (bridge c.now q.now) from to }
{
    pair_in_c(bridge::pair(c, q, from, to))
}

// ---- the replay of a trace

// Nothing read yet.
#[unsafe(no_mangle)]
pub extern "C" fn yendrolf_start_trace() -> Trace
    ensures { result ≡ started_trace }
{
    replaying::start()
}

// Takes the next chunk of a trace.
#[unsafe(no_mangle)]
pub extern "C" fn yendrolf_bridge_feed(
    c: &mut CounterWords,
    q: &mut QueueWords,
    w: &mut Filters,
    trace: Trace,
    chunk: &[u8],
) -> Trace
    ensures { fed_trace (bridge c.new q.new) w.new result
        ≡ feeding_trace (bridge c.old q.old) w.old trace chunk.now }
{
    replaying::feed(c, q, w, trace, chunk)
}

// Lays the text of a replay over the start of `text`.
#[unsafe(no_mangle)]
pub extern "C" fn yendrolf_bridge_finish(
    c: &CounterWords,
    q: &QueueWords,
    trace: Trace,
    text: &mut [u8],
) -> Told
    ensures { outcome (said_to result) text.new ≡ finished_trace (bridge c.now q.now) trace text.old }
{
    in_c(replaying::finish(c, q, trace, text))
}

// ---- long messages

// Makes head words of which nobody holds a session; the sessions' bytes may hold anything.
#[unsafe(no_mangle)]
pub extern "C" fn yendrolf_sessions_fresh(heads: &mut Heads)
    ensures { heads.new ≡ fresh_heads }
{
    transport::fresh(heads)
}

// Takes a frame that may be a request to send.
#[unsafe(no_mangle)]
pub extern "C" fn yendrolf_sessions_request(
    heads: &mut Heads,
    id: u32,
    len: u8,
    d: &[u8; 8],
) -> Told
    ensures { outcome (said_to result) heads.new ≡ requested heads.old id len d.now }
{
    in_c(transport::request(heads, id, len, d))
}

// Takes a frame that may be a packet; the last packet of a session lays the payload over the start of `out`.
#[unsafe(no_mangle)]
pub extern "C" fn yendrolf_sessions_packet(
    heads: &mut Heads,
    bytes: &mut Bytes,
    out: &mut Payload,
    id: u32,
    len: u8,
    d: &[u8; 8],
) -> Brought
    ensures { brought_to result (memory heads.new bytes.new) out.new
        ≡ arrived (memory heads.old bytes.old) out.old id len d.now }
{
    brought_in_c(transport::packet(heads, bytes, out, id, len, d))
}
