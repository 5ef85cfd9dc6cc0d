// Every question about a key: judging its map by its edition, packing and reading its payloads, finding an SPN in it (01, "Answer numbers"; 02, Req 10). The learned table is
// lent as words; whatever they hold, each call has its defined answer, and none changes them. A call opens its key's map once (crate open).
#![tactic(auto)]

ghost use Rattle.std.specs.Prelude.{◌≡◌, ◌≤◌, eqb, get_or, MatchResult};
ghost use Rattle.answers.specs.Answers.{in_numbers, outcome, plain};
ghost use Rattle.words.specs.First.{lowest};
ghost use Rattle.judge.specs.Judge.{count_of};
ghost use Rattle.keyrow.specs.Row.{positions};
ghost use Rattle.open.specs.Open.{width_for, judged_by};
ghost use Rattle.ask.specs.Ask.{packed_by, reads, read_by, found_in, not_found, found_by, standing_in, nowhere, stands_by};
ghost use Rattle.ask.specs.Parts.{ready_by, Refused, InHand, IsPosition, IsCell, cell_at, said_by, read_with};
ghost use Rattle.lookup.specs.View.{map_in};

use answers::{Answer, Judgement};
use keyrow::{FORM, HELD, POSITIONS, ROW_WORDS, STATE};
use lookup::Table;
use message::Key;
use payload::Unlaid;

// What finding gives; position, start and width are 0 on a refusal.
// Kept: the answer beside the rest and no `Result`: document 01 nests the judgement in what pack, read and find return, and C reads all fields on every answer.
#[derive(Clone, Copy)]
pub struct Found {
    pub answer: Answer,
    pub position: u8,
    pub start: u32,
    pub width: u32,
}

// The parameter at a position; all 0 on a refusal, and the width 0 where the dictionary of the key's edition does not have the SPN.
// Kept: as `Found`.
#[derive(Clone, Copy)]
pub struct Parameter {
    pub answer: Answer,
    pub spn: u32,
    pub start: u32,
    pub width: u32,
}

// ---- what the calls begin and end with

// The tests that pack, read and find begin with, by what judging answered: 11, then 12; none applies to a usable map.
fn ready(answer: Answer) -> Result<(), Answer>
    ensures { MatchResult result (λ _. ready_by (in_numbers answer) ≡ plain 0) (λ why. Refused (in_numbers why) (ready_by (in_numbers answer))) }
{
    if answer.number != 0 {
        return Err(answer);
    }
    let judgement = answer.judgement;
    if answers::number_of(judgement) != 0 { // 12, before all that follows
        return Err(answers::not_usable(judgement));
    }
    Ok(()) // usable
}

// Opens a key's map for its payloads: 11, 12, else n, and the starts and widths of its n parameters stand over the start of the arrays.
fn lists_of(
    t: &Table,
    key: Key,
    starts: &mut [u32; POSITIONS],
    widths: &mut [u32; POSITIONS],
) -> Result<usize, Answer>
    ensures { MatchResult result (λ n. InHand (width_for t.now key) (map_in t.now key) n starts.new widths.new)
        (λ why. Refused (in_numbers why) (ready_by (judged_by (width_for t.now key) (map_in t.now key)))) }
{
    let mut spns = [0u32; POSITIONS];
    let map = open::open(t, key, &mut spns, starts, widths);
    ready(map.answer)?;
    Ok(map.n as usize)
}

// What packing or reading told, in 01's numbers. Of a usable map each position has its place (law usable_placed), so that Unplaced never comes.
fn told(laying: Result<u32, Unlaid>) -> Answer
    ensures { in_numbers result ≡ said_by laying }
{
    match laying {
        Ok(detail) => answers::with_detail(0, detail),
        Err(Unlaid::Unplaced(p)) => answers::not_usable(Judgement::Beyond(p)),
        Err(Unlaid::Length) => answers::plainly(13),
        Err(Unlaid::TooWide(p)) => answers::with_detail(14, p as u32),
    }
}

// Reads by starts and widths, and lays the state of each number beside it: 13 where a length is wrong, that of `states` among them.
fn read_with(
    starts: &[u32],
    widths: &[u32],
    payload: &[u8],
    room: &mut [u32],
    states: &mut [u8],
) -> Answer
    ensures { reads (in_numbers result) room.new states.new
        ≡ read_with starts.now widths.now payload.now room.old states.old }
{
    if states.len() < starts.len() { // no room for a state of each
        return answers::plainly(13);
    }
    let answer = told(payload::read(starts, widths, payload, room));
    if answer.number != 0 { // nothing was laid
        return answer;
    }
    states::lay(widths, room, states);
    answer
}

// The index, from 0 on, of the lowest of n positions whose SPN it is.
fn position_in(spns: &[u32; POSITIONS], n: u8, spn: u32) -> Option<usize>
    requires { n ≤ positions }
    ensures { IsPosition n result (lowest (λ i. eqb (get_or spns.now i 0) spn) n) }
{
    for i in 0..n as usize {
        if spns[i] == spn {
            return Some(i);
        }
    }
    None
}

// A refusal of find.
fn refused(answer: Answer) -> Found
    ensures { found_in result ≡ not_found (in_numbers answer) }
{
    Found {
        answer,
        position: 0,
        start: 0,
        width: 0,
    }
}

// The cell of a position, where something stands there.
fn cell_at(row: &[u64; ROW_WORDS], position: u8) -> Option<u64>
    ensures { IsCell result (cell_at row.now position) }
{
    let p = position as usize;
    let inside = (row[STATE] == HELD) & ((1 <= p) & (p <= POSITIONS));
    if !inside {
        return None;
    }
    let cell = row[FORM + p];
    if cell == 0 {
        return None;
    }
    Some(cell)
}

// A refusal of parameter_at.
fn absent(answer: Answer) -> Parameter
    ensures { standing_in result ≡ nowhere (in_numbers answer) }
{
    Parameter {
        answer,
        spn: 0,
        start: 0,
        width: 0,
    }
}

// ---- the calls

// The number of parameters of a key's map; 0 where it is in conflict, or not held.
pub fn count(t: &Table, key: Key) -> u8
    ensures { result ≡ count_of (map_in t.now key) }
{
    let Some(row) = lookup::row_of(t, key) else {
        return 0;
    };
    if row[STATE] != HELD { // in conflict: N is 0
        return 0;
    }
    let head = keyrow::head_of(row[FORM]);
    head.n
}

// Judges a key's map: 11, else 0 with the judgement.
pub fn judge(t: &Table, key: Key) -> Answer
    ensures { in_numbers result ≡ judged_by (width_for t.now key) (map_in t.now key) }
{
    let mut spns = [0u32; POSITIONS];
    let mut starts = [0u32; POSITIONS];
    let mut bits = [0u32; POSITIONS]; // the widths
    let map = open::open(t, key, &mut spns, &mut starts, &mut bits);
    map.answer
}

// Packs numbers by a key's map into the first L bytes of `out`: 11, 12, 13, 14, else 0 with L. Every test is made before the first byte is
// written.
pub fn pack(t: &Table, key: Key, numbers: &[u32], out: &mut [u8]) -> Answer
    ensures { outcome (in_numbers result) out.new
        ≡ packed_by (width_for t.now key) (map_in t.now key) numbers.now out.old }
{
    let mut starts = [0u32; POSITIONS];
    let mut widths = [0u32; POSITIONS];
    match lists_of(t, key, &mut starts, &mut widths) {
        Ok(n) => told(payload::pack(&starts[..n], &widths[..n], numbers, out)),
        Err(answer) => answer, // 11 or 12, before 13 and 14
    }
}

// Reads a payload by a key's map into the first n places of `room`, and lays the state of each number into the first n of `states`: 11, 12, 13, else 0 with n. Every test
// is made before the first number is written.
pub fn read(t: &Table, key: Key, payload: &[u8], room: &mut [u32], states: &mut [u8]) -> Answer
    ensures { reads (in_numbers result) room.new states.new
        ≡ read_by (width_for t.now key) (map_in t.now key) payload.now room.old states.old }
{
    let mut starts = [0u32; POSITIONS];
    let mut widths = [0u32; POSITIONS];
    match lists_of(t, key, &mut starts, &mut widths) {
        Ok(n) => read_with(&starts[..n], &widths[..n], payload, room, states),
        Err(answer) => answer, // 11 or 12, before 13
    }
}

// Finds an SPN in a key's map: 11, 12, 18, else 0 with position, start and width.
pub fn find(t: &Table, key: Key, spn: u32) -> Found
    ensures { found_in result ≡ found_by (width_for t.now key) (map_in t.now key) spn }
{
    let mut spns = [0u32; POSITIONS];
    let mut starts = [0u32; POSITIONS];
    let mut bits = [0u32; POSITIONS]; // the widths
    let map = open::open(t, key, &mut spns, &mut starts, &mut bits);
    if let Err(answer) = ready(map.answer) { // 11 or 12, before 18
        return refused(answer);
    }
    let Some(i) = position_in(&spns, map.n, spn) else {
        return refused(answers::plainly(18));
    };
    Found {
        answer: answers::plainly(0),
        position: i as u8 + 1,
        start: starts[i],
        width: bits[i],
    }
}

// The parameter at a position of a key's map, usable or not: 11, 18 where nothing stands there, else 0 with SPN, start and width.
pub fn parameter_at(t: &Table, key: Key, position: u8) -> Parameter
    ensures { standing_in result ≡ stands_by (width_for t.now key) (map_in t.now key) position }
{
    let Some(row) = lookup::row_of(t, key) else {
        return absent(answers::plainly(11));
    };
    let Some(cell) = cell_at(row, position) else {
        return absent(answers::plainly(18));
    };
    let spn = keyrow::spn_of(cell);
    let start = keyrow::start_of(cell);
    let width = dictionary::width_of(keyrow::edition_of(row[FORM]), spn);
    let answer = answers::plainly(0);
    Parameter {
        answer,
        spn,
        start,
        width,
    }
}
