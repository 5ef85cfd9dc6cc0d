// A key's map in hand: one call opens it for every room that asks about a key. The learned table is lent as words; whatever they hold, the call has its
// defined answer and leaves them. The SPNs, starts and widths go into arrays that the caller lends, one number for each position from 1 to n.
#![tactic(auto)]

ghost use Rattle.std.specs.Prelude.{◌≡◌, cond, ◌≤◌, eqb};
ghost use Rattle.words.specs.First.{any};
ghost use Rattle.answers.specs.Answers.{said_of, at};
ghost use Rattle.judge.specs.Judge.{spn_in, start_in, mark, judge as judge_of};
ghost use Rattle.keyrow.specs.Row.{positions};
ghost use Rattle.keyrow.specs.View.{row_map, row_as};
ghost use Rattle.open.specs.Open.{map_as, width_row, width_for, marked_width, reach, opened_in, opened_by};
ghost use Rattle.open.specs.Unfolded.{unfolded, unfolded_in, empty_at, marked_to};
ghost use Rattle.lookup.specs.View.{map_in};

use answers::{Answer, Judgement};
use keyrow::{CELLS, FORM, HELD, POSITIONS, ROW_WORDS, STATE};
use lookup::Table;
use message::Key;

// What opening a key's map gives: 11, or 0 with the judgement; the judgement of what its row holds, which of a key in conflict is that of the map before the contradiction; n and the flags, all 0 where the
// key is not held.
// Kept: no Option where the key is not held: judging hands on `answer` in every case, and `opened_by`, which the promise cites, says each field there too.
#[derive(Clone, Copy)]
pub struct Opened {
    pub answer: Answer,
    pub was: Judgement,
    pub n: u8,
    pub proprietary: bool,
    pub transport: bool,
}

// How many positions there are to unfold: n, and no more than a row has.
fn reach_of(n: u8) -> usize
    ensures { (result ≡ reach n) × (result ≤ positions) }
{
    POSITIONS.min(n as usize)
}

// ---- the lists

// Lays SPN and start of each of the first n cells, and says whether one of them is empty.
// Kept: `n ≤ positions` as a clause of four private functions: n comes from reach_of, and a type for it would be taken apart in each loop.
fn lay_places(
    row: &[u64; ROW_WORDS],
    n: usize,
    spns: &mut [u32; POSITIONS],
    starts: &mut [u32; POSITIONS],
) -> bool
    requires { n ≤ positions }
    ensures { (spns.new ≡ unfolded spn_in row.now n spns.old)
        × (starts.new ≡ unfolded start_in row.now n starts.old) × (result ≡ any (empty_at row.now) n) }
{
    let mut empty = false;
    for i in 0..n {
        let cell = row[CELLS + i];
        empty |= cell == 0;
        spns[i] = keyrow::spn_of(cell);
        starts[i] = keyrow::start_of(cell);
    }
    empty
}

// The mark where a cell is empty, else its width.
fn mark_or(cell: u64, width: u32) -> u32
    ensures { result ≡ cond (eqb cell 0) mark width }
{
    if cell == 0 {
        return judge::MISSING;
    }
    width
}

// Marks the positions of the first n at which nothing stands.
fn mark_missing(row: &[u64; ROW_WORDS], n: usize, widths: &mut [u32; POSITIONS])
    requires { n ≤ positions }
    ensures { widths.new ≡ marked_to row.now n widths.old }
{
    for i in 0..n {
        widths[i] = mark_or(row[CELLS + i], widths[i]);
    }
}

// The same, where it is known whether one of the cells is empty: of most maps none is, and the widths stay as they are.
fn mark_where(empty: bool, row: &[u64; ROW_WORDS], n: usize, widths: &mut [u32; POSITIONS])
    requires { (n ≤ positions) × (empty ≡ any (empty_at row.now) n) }
    ensures { widths.new ≡ marked_to row.now n widths.old }
{
    if empty {
        mark_missing(row, n, widths);
    }
}

// Unfolds the first n cells of a row as SPNs, starts and widths. Every width that a call uses comes from here, from one look-up of all SPNs by the row's edition.
fn unfold_row(
    row: &[u64; ROW_WORDS],
    n: usize,
    spns: &mut [u32; POSITIONS],
    starts: &mut [u32; POSITIONS],
    widths: &mut [u32; POSITIONS],
)
    requires { n ≤ positions }
    ensures { (spns.new ≡ unfolded spn_in row.now n spns.old)
        × (starts.new ≡ unfolded start_in row.now n starts.old)
        × (widths.new ≡ unfolded marked_width row.now n widths.old) }
{
    let empty = lay_places(row, n, spns, starts);
    let edition = keyrow::edition_of(row[FORM]);
    dictionary::widths_of(edition, &spns[..n], widths);
    mark_where(empty, row, n, widths);
}

// Unfolds a row as far as its n asks, and judges what it holds, in conflict or not. A position past the 64 is missing.
fn judge_row(
    row: &[u64; ROW_WORDS],
    spns: &mut [u32; POSITIONS],
    starts: &mut [u32; POSITIONS],
    widths: &mut [u32; POSITIONS],
) -> Judgement
    ensures { (said_of result ≡ judge_of (width_row row.now) (row_as row.now)) × (spns.new ≡ unfolded_in spn_in row.now spns.old)
        × (starts.new ≡ unfolded_in start_in row.now starts.old)
        × (widths.new ≡ unfolded_in marked_width row.now widths.old) }
{
    let head = keyrow::head_of(row[FORM]);
    unfold_row(row, reach_of(head.n), spns, starts, widths);
    judge::judge(head.n, head.transport, spns, starts, widths)
}

// The judgement of a row's map: in conflict, whatever the cells say, or that of what it holds.
// Kept: a number for the state: it is a word of the table, which C lends and may hold anything.
#[tactic(auto, using(std::proofs::lemmas::Bool::Decides::nat_tests))]
fn judgement_of(state: u64, was: Judgement) -> Judgement
    ensures { said_of result ≡ cond (eqb state 1) (said_of was) (at 1 0) }
{
    if state != HELD {
        return Judgement::Conflict;
    }
    was
}

// Opens the map of a row.
fn open_row(
    row: &[u64; ROW_WORDS],
    spns: &mut [u32; POSITIONS],
    starts: &mut [u32; POSITIONS],
    widths: &mut [u32; POSITIONS],
) -> Opened
    ensures { opened_in result spns.new starts.new widths.new
        ≡ opened_by (width_row row.now) (row_map row.now) (row_as row.now) spns.old starts.old widths.old }
{
    let was = judge_row(row, spns, starts, widths);
    let head = keyrow::head_of(row[FORM]);
    let answer = answers::judgement_is(judgement_of(row[STATE], was));
    Opened {
        answer,
        was,
        n: head.n,
        proprietary: head.proprietary,
        transport: head.transport,
    }
}

// ---- the call

// Opens a key's map: 11, and the arrays are left as they were; else 0 with the judgement, n and the flags, and SPN, start and width of each position from 1 to
// n, at most 64, over the start of the arrays. The width is `judge::MISSING` where nothing stands, and 0 where the dictionary of the key's edition does not have the SPN. Of a
// key in conflict the row is read as it stood when the conflict came.
// Kept: three arrays, and no array of parameters: `dictionary::widths_of` lays all widths at once, and `payload` takes starts and widths alone.
pub fn open(
    t: &Table,
    key: Key,
    spns: &mut [u32; POSITIONS],
    starts: &mut [u32; POSITIONS],
    widths: &mut [u32; POSITIONS],
) -> Opened
    ensures { opened_in result spns.new starts.new widths.new
        ≡ opened_by (width_for t.now key) (map_in t.now key) (map_as t.now key) spns.old starts.old widths.old }
{
    let Some(row) = lookup::row_of(t, key) else {
        let answer = answers::plainly(11);
        return Opened {
            answer,
            was: Judgement::Usable,
            n: 0,
            proprietary: false,
            transport: false,
        };
    };
    open_row(row, spns, starts, widths)
}
