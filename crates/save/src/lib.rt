// Saving a learned table as an image (02, Req 01 and 10), straight into the caller's buffer. Each key is judged once; whatever the words hold, each call has its defined
// answer.
#![tactic(auto)]

ghost use Rattle.std.specs.Prelude.{◌≡◌, [], ◌∷◌, true, ◌≤◌, length, take};
ghost use Rattle.answers.specs.Answers.{in_numbers, outcome};
ghost use Rattle.splice.specs.Splice.{laid};
ghost use Rattle.text.specs.Page.{Laid};
ghost use Rattle.text.specs.Text.{page, put_all};
ghost use Rattle.keyrow.specs.Row.{form_word};
ghost use Rattle.keyrow.specs.View.{head_of, place_of, place_in};
ghost use Rattle.lookup.specs.View.{map_in, edition_in};
ghost use Rattle.image.specs.Write.{place_or, body_of, edition_byte, full_row, row_size, row_bytes, behind as behind_of, bodies_of, is_saved, saved_keys, image_in, image_of, saved_into};
ghost use Rattle.save.specs.Pieces.{body_pieces, map_pieces, row_pieces, bodies_pieces, image_pieces};

use answers::Answer;
use keyrow::{EDITION_2004, FORM, POSITIONS, ROW_WORDS};
use lookup::{ROWS, Table};
use message::{Key, Place};
use text::Page;

// No table that calls have made has a longer image (law most-long): 16 rows with 31 positions each.
pub const MOST: usize = 2610;

// The form of an image, its byte 0: form 1 has no editions, and is no longer written.
// Kept: a number and no enum, as load says.
pub const OLD: u8 = 1;

pub const WRITTEN: u8 = 2;

// ---- the contents

// How many bytes a row has in a form.
pub fn row_size(form: u8) -> usize
    ensures { (result ≡ row_size form) × (result ≤ 8) }
{
    if form == OLD {
        return 7;
    }
    8
}

// The first byte behind so many rows.
pub fn behind(form: u8, count: u8) -> usize
    ensures { (result ≡ behind_of form count) × (result ≤ 2042) }
{
    if form == OLD {
        return 2 + 7 * count as usize;
    }
    2 + 8 * count as usize
}

// ---- a body

// The cell of a position, 0 where a row has none.
// Kept: 0 is the cell of an empty place, which keyrow reads; the row lies in words that C lends.
fn cell_of(row: &[u64; ROW_WORDS], p: u8) -> u64
    ensures { place_of result ≡ place_in row.now p }
{
    let p = p as usize;
    if (1 <= p) & (p <= POSITIONS) {
        return row[FORM + p];
    }
    0
}

// What a row has at a position, zeros where it has nothing.
fn place_at(row: &[u64; ROW_WORDS], p: u8) -> Place
    ensures { result ≡ place_or (place_in row.now p) }
{
    let cell = cell_of(row, p);
    Place {
        spn: keyrow::spn_of(cell),
        start: keyrow::start_of(cell),
    }
}

// Lays the body of a row that is held: five bytes a position.
fn put_row_body(row: &[u64; ROW_WORDS], page: &mut Page)
    ensures { Laid page.old page.new (body_pieces (head_of (form_word row.now)) (place_in row.now) 1 (head_of (form_word row.now)).n) }
{
    let head = keyrow::head_of(row[FORM]);
    let n = head.n;
    for i in 0..n {
        let p = i + 1;
        let five = written::five_of(head, p, place_at(row, p));
        page.bytes(&five);
    }
}

// Lays the body of a key that is saved.
fn put_body(t: &Table, key: Key, page: &mut Page)
    requires { is_saved t.now key ≡ true }
    ensures { Laid page.old page.new (map_pieces (map_in t.now key)) }
{
    if let Some(row) = lookup::row_of(t, key) {
        put_row_body(row, page);
    }
}

// How long the body of a key is.
fn body_len(t: &Table, key: Key) -> usize
    ensures { (result ≡ length (body_of (map_in t.now key))) × (result ≤ 1275) }
{
    5 * ask::count(t, key) as usize
}

// ---- a row

// The byte of an edition.
fn edition_byte(edition: u32) -> u8
    ensures { result ≡ edition_byte edition }
{
    u8::from(edition == EDITION_2004)
}

// The bytes of a row, of which form 1 has all but the last.
fn row_bytes(key: Key, edition: u32, at: usize, len: usize) -> [u8; 8]
    ensures { result ≡ full_row key edition at len }
{
    let [at_low, at_high, ..] = at.to_le_bytes();
    let [len_low, len_high, ..] = len.to_le_bytes();
    [
        key.source,
        key.destination,
        key.k,
        at_low,
        at_high,
        len_low,
        len_high,
        edition_byte(edition),
    ]
}

// Lays the row of a key that is saved.
fn put_row(t: &Table, form: u8, key: Key, page: &mut Page, from: usize, len: usize)
    ensures { Laid page.old page.new (row_bytes form key (edition_in t.now key) from len ∷ []) }
{
    let edition = lookup::edition_of(t, key);
    let row = row_bytes(key, edition, from, len);
    let n = row_size(form);
    page.bytes(&row[..n]);
}

// ---- which keys

// Whether a key is saved: its map is usable by its edition.
fn is_saved(t: &Table, key: Key) -> bool
    ensures { result ≡ is_saved t.now key }
{
    let judged = ask::judge(t, key);
    let judgement = judged.judgement;
    let number = answers::number_of(judgement);
    (judged.number == 0) & (number == 0)
}

// The keys that are saved, rising: so many of the first. And how long their bodies are together.
// Kept: an array and how many are filled, as there is no heap here and 16 rows hold no more than 16.
#[derive(Clone, Copy)]
struct Chosen {
    keys: [Key; ROWS],
    count: u8,
    bodies: usize,
}

// Judges each held key once.
fn choose(t: &Table) -> Chosen
    ensures { (take result.count result.keys ≡ saved_keys t.now) × (result.count ≡ length (saved_keys t.now))
        × (result.bodies ≡ length (bodies_of (map_in t.now) (saved_keys t.now))) × (result.count ≤ 16) × (result.bodies ≤ 20400) }
{
    let none = Key {
        source: 0,
        destination: 0,
        k: 0,
    };
    let mut keys = [none; ROWS];
    let mut count = 0;
    let mut bodies = 0;
    for key in lookup::keys(t) {
        if is_saved(t, key) {
            keys[count as usize] = key;
            count += 1;
            bodies += body_len(t, key);
        }
    }
    Chosen {
        keys,
        count,
        bodies,
    }
}

// ---- the image

// Lays the rows of the keys that are saved; the first body begins at `from`.
fn put_rows(t: &Table, form: u8, keys: &[Key], page: &mut Page, from: usize)
    requires { (from ≤ 2042) × (length keys.now ≤ 16) }
    ensures { Laid page.old page.new (row_pieces form (edition_in t.now) (map_in t.now) from keys.now) }
{
    let mut body = from;
    for key in keys {
        let len = body_len(t, *key);
        put_row(t, form, *key, page, body, len);
        body += len;
    }
}

// Lays their bodies.
fn put_bodies(t: &Table, keys: &[Key], page: &mut Page)
    requires { keys.now ≡ saved_keys t.now }
    ensures { Laid page.old page.new (bodies_pieces (map_in t.now) keys.now) }
{
    for key in keys {
        put_body(t, *key, page);
    }
}

// Lays the whole image.
fn put_image(t: &Table, form: u8, keys: &[Key], out: &mut [u8]) -> usize
    requires { (keys.now ≡ saved_keys t.now) × (length keys.now ≤ 16) }
    ensures { page result out.new
        ≡ put_all (page 0 out.old) (image_pieces form (edition_in t.now) (map_in t.now) (saved_keys t.now)) }
{
    let count = keys.len() as u8;
    let first = [form, count];
    let mut page = Page::new(out, 0);
    page.bytes(&first);
    put_rows(t, form, keys, &mut page, behind(form, count));
    put_bodies(t, keys, &mut page);
    page.at()
}

// ---- the calls

// How many bytes the image of a table has.
pub fn size(t: &Table) -> usize
    ensures { result ≡ length (image_of t.now) }
{
    let chosen = choose(t);
    behind(WRITTEN, chosen.count) + chosen.bodies
}

// Lays the image of a table in a form over the start of `out` where it has room, and says how many bytes it has; else nothing is laid. Another form than that which is
// written is laid to be compared alone.
pub fn lay(t: &Table, form: u8, out: &mut [u8]) -> usize
    ensures { (result ≡ length (image_in form t.now)) × (out.new ≡ laid out.old 0 (image_in form t.now)) }
{
    let chosen = choose(t);
    let n = behind(form, chosen.count) + chosen.bodies;
    if out.len() < n {
        return n;
    }
    put_image(t, form, &chosen.keys[..chosen.count as usize], out)
}

// Saves a table: 13, and nothing is written, where the buffer is too short for its image; else 0, and the bytes past the image keep what they held.
pub fn save(t: &Table, out: &mut [u8]) -> Answer
    ensures { outcome (in_numbers result) out.new ≡ saved_into t.now out.old }
{
    let room = out.len();
    let n = lay(t, WRITTEN, out);
    if room < n {
        return answers::plainly(13);
    }
    answers::plainly(0)
}
