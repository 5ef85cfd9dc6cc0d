// Reading an image of either form as a whole (02, Req 01 and 10): whether it is undamaged, and loading it into an empty table. Any bytes may be asked, of any length; the time
// that they take is bounded, since at most 255 rows with 31 positions each are heard and comparing stops at the first difference.
#![tactic(auto)]

ghost use Rattle.std.specs.Prelude.{◌≡◌, cond, ◌≤◌, eqb, get_or};
ghost use Rattle.answers.specs.Answers.{in_numbers, outcome};
ghost use Rattle.image.specs.Read.{key_at, row_count, form_of, same, good, loaded};
ghost use Rattle.load.specs.Fed.{fed_one, fed_body, fed_frames, fed_editions, fed_all};

use answers::Answer;
use keyrow::{EDITION_2004, EDITION_2010};
use lookup::{Table, WORDS};
use message::Key;
use save::{MOST, OLD, WRITTEN};

// The length of every frame that an image stands for.
const LENGTH: u8 = 8;

// ---- hearing

// The byte at a place, and 0 past the end.
pub fn byte_at(s: &[u8], i: usize) -> u8
    ensures { result ≡ get_or s.now i 0 }
{
    s.get(i).copied().unwrap_or(0)
}

// The form of an image: 1, or it is read as the form that is written.
// Kept: a number and no enum, as it is the image's first byte, and the calls of `save` take any byte for a form.
pub fn form_of(image: &[u8]) -> u8
    ensures { result ≡ form_of image.now }
{
    if byte_at(image, 0) == OLD {
        return OLD;
    }
    WRITTEN
}

// The edition that a row's last byte says.
pub fn edition_said(byte: u8) -> u32
    ensures { result ≡ cond (eqb byte 1) 2004 2010 }
{
    if byte == 1 {
        return EDITION_2004;
    }
    EDITION_2010
}

// The key of the row at byte r, whose bytes past the end are 0.
pub fn key_at(image: &[u8], r: usize) -> Key
    ensures { result ≡ key_at image.now r }
{
    let row = image.get(r..).unwrap_or(b"");
    Key {
        source: byte_at(row, 0),
        destination: byte_at(row, 1),
        k: byte_at(row, 2),
    }
}

// Hears the frame of a key whose data bytes 4 to 8 stand at p.
fn hear(t: &mut Table, image: &[u8], key: Key, p: usize)
    requires { p ≤ 65536 }
    ensures { t.new ≡ fed_one t.old image.now key p }
{
    let id = written::id_of(key);
    let five = [
        byte_at(image, p),
        byte_at(image, p + 1),
        byte_at(image, p + 2),
        byte_at(image, p + 3),
        byte_at(image, p + 4),
    ];
    let d = written::with_key(key.k, five);
    table::learn(t, id, LENGTH, &d);
}

// Hears the n frames of a body that stands at p.
fn feed_body(t: &mut Table, image: &[u8], key: Key, p: usize, n: u8)
    requires { (p ≤ 60000) × (n ≤ 31) }
    ensures { t.new ≡ fed_body t.old image.now key p n }
{
    for i in 0..n as usize {
        hear(t, image, key, p + 5 * i);
    }
}

// Hears every frame that an image stands for.
fn hear_all(t: &mut Table, image: &[u8])
    ensures { t.new ≡ fed_frames t.old image.now }
{
    let form = form_of(image);
    let count = byte_at(image, 1);
    let mut at = save::behind(form, count);
    for i in 0..count {
        let key = key_at(image, save::behind(form, i));
        let n = byte_at(image, at + 3) % 32;
        feed_body(t, image, key, at, n);
        at += 5 * n as usize;
    }
}

// Gives each key the edition that its row says.
fn set_editions(t: &mut Table, image: &[u8])
    ensures { t.new ≡ fed_editions t.old image.now 2 (row_count image.now) }
{
    for i in 0..byte_at(image, 1) as usize {
        let row = 2 + 8 * i;
        let key = key_at(image, row);
        let edition = edition_said(byte_at(image, row + 7));
        edition::set_edition(t, key, edition);
    }
}

// All that an image stands for: its frames, and then the editions of its keys, which form 1 has not.
fn feed(t: &mut Table, image: &[u8])
    ensures { t.new ≡ fed_all t.old image.now }
{
    hear_all(t, image);
    if form_of(image) != OLD {
        set_editions(t, image);
    }
}

// ---- checking

// Whether two slices hold the same bytes.
#[tactic(auto, using(crate::proofs::Same::same_is))]
fn same_bytes(a: &[u8], b: &[u8]) -> bool
    ensures { result ≡ same a.now b.now }
{
    a == b
}

// Whether an image is undamaged: what it stands for is loaded into a table of its own, saved again in the same form, and compared.
pub fn check(image: &[u8]) -> bool
    ensures { result ≡ good image.now }
{
    let mut t = [0u64; WORDS];
    feed(&mut t, image);
    let mut whole = [0u8; MOST];
    let n = save::lay(&t, form_of(image), &mut whole);
    same_bytes(&whole[..n], image)
}

// ---- loading

// Loads an image into an empty table: 21 where it is damaged, 23 where a key is held, and the table is left as it was; else 0.
pub fn load(t: &mut Table, image: &[u8]) -> Answer
    ensures { outcome (in_numbers result) t.new ≡ loaded t.old image.now }
{
    if check(image) {
        match lookup::first_key(t) {
            Some(_) => return answers::plainly(23),
            None => {
                feed(t, image);
                return answers::plainly(0);
            }
        }
    }
    answers::plainly(21)
}
