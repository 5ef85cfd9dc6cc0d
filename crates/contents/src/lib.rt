// Asking an image of either form (02, Req 01 and 10): for a row of its contents by its number, from 0 on, and for a key. A body is handed back as a part of the caller's own image, an empty
// part on a refusal; beside it a plain call gives the number: 21 damaged image, 22 key or row not in it. Any bytes may be asked, and each call checks the whole
// image.
#![tactic(auto)]

ghost use Rattle.std.specs.Prelude.{◌≡◌, ◌+◌, ◌*◌, ◌≤◌, ◌<◌, cond, eqb, get_or};
ghost use Rattle.answers.specs.Answers.{in_numbers};
ghost use Rattle.maps.specs.Maps.{same_key};
ghost use Rattle.image.specs.Read.{key_at, edition_at};
ghost use Rattle.image.specs.Part.{row_asked, row_key, row_body, row_offset, row_next, row_entry, row_with, PartOf};
ghost use Rattle.contents.specs.Rows.{entry_in, no_entry};

use answers::Answer;
use keyrow::EDITION_2010;
use load::byte_at;
use message::Key;
use save::OLD;

// A row is source, destination and k, two numbers of two bytes each, and in form 2 the byte of its edition.
const OFFSET: usize = 3;

const LENGTH: usize = 5;

const EDITION: usize = 7;

// Two bytes as a number, the least significant first.
fn word(s: &[u8], p: usize) -> usize
    requires { p ≤ 65536 }
    ensures { (result ≡ get_or s.now p 0 + get_or s.now (p + 1) 0 * 256) × (result < 65536) }
{
    u16::from_le_bytes([byte_at(s, p), byte_at(s, p + 1)]) as usize
}

// How many rows the contents say there are.
fn count(image: &[u8]) -> usize
    ensures { (result ≡ get_or image.now 1 0) × (result < 256) }
{
    byte_at(image, 1) as usize
}

// The edition of the row at byte r: 2010 in form 1.
fn edition_at(image: &[u8], form: u8, r: usize) -> u32
    requires { r ≤ 65536 }
    ensures { result ≡ cond (eqb form 1) 2010 (edition_at image.now r) }
{
    if form == OLD {
        return EDITION_2010;
    }
    load::edition_said(byte_at(image, r + EDITION))
}

// ---- a row by its number

// 21, 22, or 0.
pub fn row_asked(image: &[u8], i: usize) -> Answer
    ensures { in_numbers result ≡ row_asked image.now i }
{
    if load::check(image) {
        if i < count(image) {
            return answers::plainly(0);
        }
        return answers::plainly(22);
    }
    answers::plainly(21)
}

// What a row says, all of it in numbers: for C, and for who cannot hold a part. All but the answer is 0 on a refusal.
// Kept: the answer beside the rest and no `Result`, as include/yendrolf.h lends C one struct of both.
#[derive(Clone, Copy)]
pub struct Listed {
    pub answer: Answer,
    pub key: Key,
    pub offset: usize,
    pub size: usize,
    pub edition: u32,
}

// A refusal of row.
fn no_row(answer: Answer) -> Listed
    ensures { entry_in result ≡ no_entry (in_numbers answer) }
{
    Listed {
        answer,
        key: Key {
            source: 0,
            destination: 0,
            k: 0,
        },
        offset: 0,
        size: 0,
        edition: 0,
    }
}

// The row with this number: 21, 22, or 0 with its key, where its body begins and how long it is, and its edition.
pub fn row(image: &[u8], i: usize) -> Listed
    ensures { entry_in result ≡ row_entry image.now i }
{
    let answer = row_asked(image, i);
    if answer.number != 0 {
        return no_row(answer);
    }
    let form = load::form_of(image);
    let r = save::behind(form, i as u8);
    Listed {
        answer,
        key: load::key_at(image, r),
        offset: word(image, r + OFFSET),
        size: word(image, r + LENGTH),
        edition: edition_at(image, form, r),
    }
}

// The key of a row; all 0 on a refusal.
pub fn row_key(image: &[u8], i: usize) -> Key
    ensures { result ≡ row_key image.now i }
{
    let listed = row(image, i);
    listed.key
}

// The body of a row, as a part of the image; an empty part, at its first byte, on a refusal.
pub fn row_body<'a>(image: &'a [u8], i: usize) -> &'a [u8]
    ensures { PartOf image.entry result (row_offset image.now i) (row_body image.now i) }
{
    let listed = row(image, i);
    let from = listed.offset;
    let end = from + listed.size;
    &image[from..end]
}

// The number of the row after it; behind the last row, and on a refusal, the number itself.
pub fn row_next(image: &[u8], i: usize) -> usize
    ensures { result ≡ row_next image.now i }
{
    let answer = row_asked(image, i);
    if answer.number != 0 {
        return i;
    }
    i + 1
}

// ---- a row by its key

// Whether the row at byte r has this key.
fn row_is(image: &[u8], r: usize, key: Key) -> bool
    requires { r ≤ 65536 }
    ensures { result ≡ same_key (key_at image.now r) key }
{
    load::key_at(image, r) == key
}

// The lowest row that the contents give this key, whatever the image is; the number of rows where none has it.
// Kept: a number and no `Option`: the calls below ask for just this row, and the row past the last is told as one that is not there.
pub fn row_with(image: &[u8], key: Key) -> usize
    ensures { result ≡ row_with image.now key }
{
    let form = load::form_of(image);
    let count = byte_at(image, 1);
    for i in 0..count {
        if row_is(image, save::behind(form, i), key) {
            return i as usize;
        }
    }
    count as usize
}

// The body of a key, as a part of the image.
pub fn body<'a>(image: &'a [u8], key: Key) -> &'a [u8]
    ensures { PartOf image.entry result (row_offset image.now (row_with image.now key))
        (row_body image.now (row_with image.now key)) }
{
    let i = row_with(image, key);
    row_body(image, i)
}

// 21, 22, or 0.
pub fn asked(image: &[u8], key: Key) -> Answer
    ensures { in_numbers result ≡ row_asked image.now (row_with image.now key) }
{
    row_asked(image, row_with(image, key))
}

// The row of a key: 21, 22, or 0 with where its body begins and how long it is, and its edition.
pub fn row_of(image: &[u8], key: Key) -> Listed
    ensures { entry_in result ≡ row_entry image.now (row_with image.now key) }
{
    row(image, row_with(image, key))
}
