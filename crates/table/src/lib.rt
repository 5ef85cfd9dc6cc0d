// The learned table in words that the caller lends: learning from a frame, forgetting a key, making it empty; and, from the rooms below, how it is read
// (lookup) and what a row holds (keyrow). Whatever the words hold, each call has its defined answer.
#![tactic(auto)]

ghost use Rattle.std.specs.Prelude.{◌≡◌, ◌<◌, replicate};
ghost use Rattle.answers.specs.Answers.{in_numbers, outcome};
ghost use Rattle.history.specs.History.{most_keys};
ghost use Rattle.keyrow.specs.Row.{row_words, key_number};
ghost use Rattle.keyrow.specs.Learn.{learned_row, learn_numbers, first_numbers};
ghost use Rattle.lookup.specs.Layout.{row_of};
ghost use Rattle.table.specs.Layout.{put_row, Storable};
ghost use Rattle.table.specs.Learn.{in_row, refusal_number, learned_message, learn_message, learnt, empty_table};
ghost use Rattle.table.specs.Forget.{free_to, forgotten};

use answers::Answer;
pub use keyrow::{CELLS, FORM, HELD, POSITIONS, STATE, key_number};
use keyrow::{InConflict, KEY, ROW_WORDS};
use lookup::Table;
pub use lookup::{ROWS, first_key, keys, next_key, row_of, slot_of};
use message::{Key, Message};

// ---- learning

// Why a well-formed message is not learned: its key is new and 16 keys are held (9), or its key is in conflict, or put there by it (10).
#[derive(Clone, Copy, PartialEq, Eq)]
enum Refusal {
    NoRoom,
    InConflict,
}

impl From<InConflict> for Refusal {
    ghost use Rattle.table.specs.declared.Refusal.TheVariants.{InConflict};

    ghost from_gives = { λ why e. e ≡ InConflict };

    fn from(_why: InConflict) -> Refusal {
        Refusal::InConflict
    }
}

impl From<Refusal> for u8 {
    ghost from_gives = { λ why n. n ≡ refusal_number why };

    fn from(why: Refusal) -> u8 {
        match why {
            Refusal::NoRoom => 9,
            Refusal::InConflict => 10,
        }
    }
}

// One message more, told by its numbers, for the key of row i.
// Kept: `i < most_keys` as a clause here and in the next: i comes from an Option of lookup that says so.
fn learn_at(t: &mut Table, i: usize, form: u64, p: u8, cell: u64) -> Result<(), InConflict>
    requires { i < most_keys }
    ensures { outcome (learned_row result) t.new ≡ in_row t.old i (learn_numbers (row_of t.old i) form p cell) }
{
    let a = i * ROW_WORDS;
    let e = a + ROW_WORDS;
    keyrow::learn_row(&mut t[a..e], form, p, cell)
}

// Row i for a key that has this one message.
fn new_at(t: &mut Table, i: usize, key: u64, form: u64, p: u8, cell: u64)
    requires { i < most_keys }
    ensures { t.new ≡ put_row t.old i (first_numbers (replicate row_words 0) key form p cell) }
{
    let a = i * ROW_WORDS;
    let e = a + ROW_WORDS;
    keyrow::new_row(&mut t[a..e], key, form, p, cell);
}

// One well-formed message: into its key's row, or into the lowest free one. One row is touched.
fn learn_message(t: &mut Table, m: Message) -> Result<(), Refusal>
    requires { Storable m }
    ensures { outcome (learned_message result) t.new ≡ learn_message t.old m }
{
    let key = m.key;
    let place = m.place;
    let number = key_number(key);
    let form = keyrow::form_number(m.head);
    let cell = keyrow::cell_number(place.spn, place.start as u16);
    if let Some(i) = lookup::slot_in(t, number) {
        learn_at(t, i, form, m.position, cell)?;
        return Ok(());
    }
    let Some(f) = lookup::free_slot(t) else {
        return Err(Refusal::NoRoom);
    };
    new_at(t, f, number, form, m.position, cell);
    Ok(())
}

// Learns from one frame. A frame of another PGN is refused before the table or a data byte is looked at.
pub fn learn(t: &mut Table, id: u32, len: u8, d: &[u8; 8]) -> Answer
    ensures { outcome (in_numbers result) t.new ≡ learnt t.old id len d.now }
{
    match message::decode(id, len, d) {
        Ok(m) => match learn_message(t, m) {
            Ok(()) => answers::plainly(0),
            Err(why) => answers::plainly(u8::from(why)),
        },
        Err(fault) => answers::plainly(u8::from(fault)),
    }
}

// ---- forgetting

// Makes an empty table of any words.
pub fn empty(t: &mut Table)
    ensures { t.new ≡ empty_table }
{
    words::clear(t);
}

// Frees every row that holds the key.
fn free_rows(t: &mut Table, key: u64)
    ensures { t.new ≡ free_to t.old key most_keys }
{
    for i in 0..ROWS {
        let a = i * ROW_WORDS;
        t[a] = keyrow::state_without(t[a], t[a + KEY], key);
    }
}

// Forgets one key, and no other: 11 where it is not held.
#[tactic(auto, unfolding(crate::specs::Forget::forgotten))]
pub fn forget(t: &mut Table, key: Key) -> Answer
    ensures { outcome (in_numbers result) t.new ≡ forgotten t.old (key_number key) }
{
    let number = key_number(key);
    match lookup::slot_in(t, number) {
        Some(_) => {
            free_rows(t, number);
            answers::plainly(0)
        }
        None => answers::plainly(11),
    }
}
