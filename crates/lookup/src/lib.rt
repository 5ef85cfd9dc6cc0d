// The learned table read: the row of a key, a free row, and the held keys in rising order. The table lies in words that the caller lends, 16 rows of 67
// (keyrow says what each word holds). The length is in the type, so that no call can be lent too few; whatever the words hold, each call has its
// defined answer.
#![tactic(auto)]

ghost use Rattle.std.specs.Prelude.{◌≡◌, cond, not, ◌&&◌, [], eqb, leb, ltb, length, MatchOption, IfSome};
ghost use Rattle.std.specs.Iterator.{YieldsFirst, item_count};
ghost use Rattle.keyrow.specs.Row.{row_words, key_number};
ghost use Rattle.lookup.specs.Layout.{table_words, slot_of, free_slot, IsRow};
ghost use Rattle.lookup.specs.View.{row_for, edition_in};
ghost use Rattle.lookup.specs.Next.{key_found, lowest_from, key_at, first_key, next_key, held_keys, keys_left};

use keyrow::{EDITION_2010, FORM, FREE, KEY, ROW_WORDS, key_number};
use message::Key;

// The table: 16 rows of 67 words.
pub const WORDS: usize = 1072;

pub const ROWS: usize = 16;

// The words of a table, as the caller lends them.
pub type Table = [u64; WORDS];

// Every key's number is below this.
const KEY_NUMBERS: u64 = 16777216;

// ---- rows

// The lowest row that holds the key with this number.
pub fn slot_in(t: &Table, key: u64) -> Option<usize>
    ensures { IsRow result (slot_of t.now key) }
{
    for i in 0..ROWS {
        let a = i * ROW_WORDS;
        if keyrow::words_are(t[a], t[a + KEY], key) {
            return Some(i);
        }
    }
    None
}

// The number of the row that holds a key, 0 to 15; none where the key is not held.
pub fn slot_of(t: &Table, key: Key) -> Option<usize>
    ensures { IsRow result (slot_of t.now (key_number key)) }
{
    slot_in(t, key_number(key))
}

// The lowest row that is free.
pub fn free_slot(t: &Table) -> Option<usize>
    ensures { IsRow result (free_slot t.now) }
{
    for i in 0..ROWS {
        if t[i * ROW_WORDS] == FREE {
            return Some(i);
        }
    }
    None
}

// The row of a key, where the key is held; the lengths of table and row, which their types say, are handed on with it.
pub fn row_of(t: &Table, key: Key) -> Option<&[u64; ROW_WORDS]>
    ensures { MatchOption result ([] ≡ row_for t.now key) (λ row. row.now ≡ row_for t.now key)
        × (length t.now ≡ table_words) × IfSome result (λ row. length row.now ≡ row_words) }
{
    let i = slot_of(t, key)?;
    let a = i * ROW_WORDS;
    let e = a + ROW_WORDS;
    t[a..e].as_array()
}

// The edition of a key, 2010 where it is not held.
pub fn edition_of(t: &Table, key: Key) -> u32
    ensures { result ≡ edition_in t.now key }
{
    match row_of(t, key) {
        Some(row) => keyrow::edition_of(row[FORM]),
        None => EDITION_2010,
    }
}

// ---- the keys in rising order

// The key word of a row that is not free, where it lies from `from` on and below `best`; else `best`.
fn nearer(state: u64, word: u64, from: u64, best: u64) -> u64
    ensures { result ≡ cond (not (eqb state 0) && leb from word && ltb word best) word best }
{
    if (state != FREE) & (from <= word) & (word < best) {
        word
    } else {
        best
    }
}

// The lowest number of a held key, from a number on, or 2^24.
// Kept: 2^24 and no None: `lowest_from`, of which this promises to be, has a number on every table, and each row is compared with it.
fn lowest_from(t: &Table, from: u64) -> u64
    ensures { result ≡ lowest_from t.now from }
{
    let mut best = KEY_NUMBERS;
    for i in 0..ROWS {
        let a = i * ROW_WORDS;
        best = nearer(t[a], t[a + KEY], from, best);
    }
    best
}

// The key with a number, if it is one.
fn key_at(x: u64) -> Option<Key>
    ensures { key_found result ≡ key_at x }
{
    if x < KEY_NUMBERS {
        return Some(Key {
            source: (x / 65536) as u8,
            destination: (x / 256 % 256) as u8,
            k: (x % 256) as u8,
        });
    }
    None
}

// The lowest held key.
pub fn first_key(t: &Table) -> Option<Key>
    ensures { key_found result ≡ first_key t.now }
{
    key_at(lowest_from(t, 0))
}

// The lowest held key above the given one.
pub fn next_key(t: &Table, key: Key) -> Option<Key>
    ensures { key_found result ≡ next_key t.now key }
{
    key_at(lowest_from(t, key_number(key) + 1))
}

// A walk over the held keys: the next one, and how many are still given at most, since 16 rows hold no more than 16.
#[derive(Drop)]
pub struct Walk<'a> {
    t: &'a Table,
    next: Option<Key>,
    left: usize,
}

impl<'a> Iterator for Walk<'a> {
    type Item = Key;

    ghost next_gives = { YieldsFirst keys_left };

    ghost remaining = { item_count keys_left };

    fn next(&mut self) -> Option<Key> {
        if self.left == 0 {
            return None;
        }
        let key = self.next?;
        self.left -= 1;
        self.next = next_key(self.t, key);
        Some(key)
    }
}

// The held keys, rising: each once.
pub fn keys(t: &Table) -> Walk<'_>
    ensures { keys_left result ≡ held_keys t.now }
{
    Walk {
        t,
        next: first_key(t),
        left: ROWS,
    }
}
