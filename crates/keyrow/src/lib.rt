// One row of the learned table: the words of a key (specs/Row.antt says what each word holds). Every call takes whatever words it is lent: a word past
// their end is 0, and one stored there is lost, so that none asks for a length.
#![tactic(auto)]

ghost use Rattle.std.specs.Prelude.{◌≡◌, cond, ◌-◌, length, get_or, set, replicate};
ghost use Rattle.answers.specs.Answers.{outcome};
ghost use Rattle.keyrow.specs.Row.{key_number, form_number, cell_of, words_are};
ghost use Rattle.keyrow.specs.Learn.{numbers_fit, learned_row, learn_numbers, first_numbers};
ghost use Rattle.keyrow.specs.View.{head_of, form_edition, with_edition, place_of, spn_there, start_there};

use message::{Head, Key};

// The words of a row: state, key, form, and from CELLS on a cell for each of 64 positions; that of position p is at FORM + p.
pub const ROW_WORDS: usize = 67;

pub const STATE: usize = 0;

pub const KEY: usize = 1;

pub const FORM: usize = 2;

pub const CELLS: usize = 3;

pub const POSITIONS: usize = 64;

// The states: any other than these three is in conflict too.
// Kept: numbers, and no enum, since a caller of C lends the words, and any number may stand in them.
pub const FREE: u64 = 0;

pub const HELD: u64 = 1;

const IN_CONFLICT: u64 = 2;

// The two editions of the dictionary: a key has one of them. In a form bit 10 is 1 for that of 2004.
// Kept: an edition is its year, and no enum, since C names it so, and the calls that take one have an answer for every number.
pub const EDITION_2004: u32 = 2004;

pub const EDITION_2010: u32 = 2010;

const EDITION_BIT: u64 = 1024;

// ---- numbers of a message

// Kept: numbers made of numbers, here and back, since C lends the words that they stand in, and specs/Row.antt says what each holds.

// A key as one number, so that rising keys are rising numbers.
pub fn key_number(key: Key) -> u64
    ensures { result ≡ key_number key }
{
    key.source as u64 * 65536 + key.destination as u64 * 256 + key.k as u64
}

// n and the two flags as one number.
pub fn form_number(h: Head) -> u64
    ensures { result ≡ form_number h }
{
    h.n as u64 + u64::from(h.proprietary) * 256 + u64::from(h.transport) * 512
}

// SPN and start as one number, never 0.
pub fn cell_number(spn: u32, start: u16) -> u64
    ensures { result ≡ cell_of spn start }
{
    1 + spn as u64 + start as u64 * 4294967296
}

// ---- and back

// n and the flags of a form.
pub fn head_of(form: u64) -> Head
    ensures { result ≡ head_of form }
{
    Head {
        n: (form % 256) as u8,
        proprietary: form / 256 % 2 == 1,
        transport: form / 512 % 2 == 1,
    }
}

// The edition of a form.
pub fn edition_of(form: u64) -> u32
    ensures { result ≡ form_edition form }
{
    if form / EDITION_BIT % 2 == 1 {
        return EDITION_2004;
    }
    EDITION_2010
}

// A form with another edition: every other bit stays.
pub fn with_edition(form: u64, edition: u32) -> u64
    ensures { result ≡ with_edition form edition }
{
    let bare = form - form / EDITION_BIT % 2 * EDITION_BIT;
    if edition == EDITION_2004 {
        return bare + EDITION_BIT;
    }
    bare
}

// SPN and start of a cell as one number, 0 where nothing stands there.
// Kept: 0, and no Option, since a cell is a word that C lends, and 0 is the number that `spn_of` and `start_of` promise of an empty one.
fn held_in(cell: u64) -> u64
    ensures { result ≡ cell - 1 }
{
    cell.saturating_sub(1)
}

// The SPN of a cell, 0 where nothing stands there.
pub fn spn_of(cell: u64) -> u32
    ensures { result ≡ spn_there (place_of cell) }
{
    (held_in(cell) % 4294967296) as u32
}

// The start of a cell, 0 where nothing stands there.
pub fn start_of(cell: u64) -> u32
    ensures { result ≡ start_there (place_of cell) }
{
    (held_in(cell) / 4294967296) as u32
}

// ---- whose row it is

// Whether a row with this state and this key word holds the key.
pub fn words_are(state: u64, word: u64, key: u64) -> bool
    ensures { result ≡ words_are state word key }
{
    (state != FREE) & (word == key)
}

// The state of such a row once the key is forgotten: another key's row keeps its own.
pub fn state_without(state: u64, word: u64, key: u64) -> u64
    ensures { result ≡ cond (words_are state word key) 0 state }
{
    if words_are(state, word, key) {
        FREE
    } else {
        state
    }
}

// ---- its words

// The word at an index, 0 past the end.
fn word(row: &[u64], i: usize) -> u64
    ensures { result ≡ get_or row.now i 0 }
{
    row.get(i).copied().unwrap_or(0)
}

// A word stored at an index; past the end nothing is.
// Kept: a test and a store, since nothing is promised of what a slice holds after `get_mut`.
fn store(row: &mut [u64], i: usize, v: u64)
    ensures { row.new ≡ set row.old i v }
{
    if i < row.len() {
        row[i] = v;
    }
}

// ---- one message more

// Whether the message with these numbers contradicts nothing of the row.
#[tactic(auto, unfolding(crate::specs::Learn::numbers_fit))]
fn row_fits(row: &[u64], form: u64, p: u8, cell: u64) -> bool
    ensures { result ≡ numbers_fit row.now form p cell }
{
    let old = word(row, FORM + p as usize);
    (word(row, FORM) % 1024 == form) & ((old == 0) | (old == cell))
}

// The key is in conflict, or was put there by this message: 10.
#[derive(Clone, Copy, PartialEq, Eq)]
pub struct InConflict;

// One message more for the key of this row: a contradiction changes the state, and no other word.
#[tactic(auto, unfolding(crate::specs::Learn::learn_numbers))]
pub fn learn_row(row: &mut [u64], form: u64, p: u8, cell: u64) -> Result<(), InConflict>
    ensures { outcome (learned_row result) row.new ≡ learn_numbers row.old form p cell }
{
    if word(row, STATE) != HELD {
        return Err(InConflict);
    }
    if row_fits(row, form, p, cell) {
        store(row, FORM + p as usize, cell);
        return Ok(());
    }
    store(row, STATE, IN_CONFLICT);
    Err(InConflict)
}

// The row of a key that has this one message.
#[tactic(auto, unfolding(crate::specs::Learn::first_numbers))]
pub fn new_row(row: &mut [u64], key: u64, form: u64, p: u8, cell: u64)
    ensures { row.new ≡ first_numbers (replicate (length row.old) 0) key form p cell }
{
    words::clear(row);
    store(row, STATE, HELD);
    store(row, KEY, key);
    store(row, FORM, form);
    store(row, FORM + p as usize, cell);
}
