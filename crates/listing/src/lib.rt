// What a log taught, as text (01, "The listing program"): `feeding::start`, then `feeding::feed` for each chunk of the log, then `finish`. The table is lent
// by the caller.
#![tactic(auto)]

ghost use Rattle.std.specs.Prelude.{◌≡◌};
ghost use Rattle.answers.specs.Answers.{at as judged_at, outcome, in_numbers};
ghost use Rattle.text.specs.Page.{Laid};
ghost use Rattle.text.specs.Text.{page, put_all};
ghost use Rattle.lookup.specs.View.{map_in, edition_in};
ghost use Rattle.lookup.specs.Next.{held_keys};
ghost use Rattle.listing.specs.Lines.{line_of, key_line, key_lines, last_line};
ghost use Rattle.listing.specs.Page.{pieces_of, finished};

use answers::Answer;
use feeding::{Counts, Tally};
use lookup::Table;
use message::Key;
use text::Page;

// So many bytes hold any listing (proofs/Widths.antt).
pub const PAGE: usize = 512;

// ---- lines

// Lays the line of a key.
fn put_line(page: &mut Page, key: Key, n: u8, judged: u8, position: u8)
    ensures { Laid page.old page.new (line_of key n (judged_at judged position)) }
{
    page.number(key.source as u64, b" ");
    page.number(key.destination as u64, b" ");
    page.number(key.k as u64, b" ");
    page.number(n as u64, b" ");
    page.number(judged as u64, b" ");
    page.number(position as u64, b"\n");
}

// Lays the line of one key, by what the table holds of it.
fn put_key(t: &Table, page: &mut Page, key: Key)
    ensures { Laid page.old page.new (key_line key (edition_in t.now key) (map_in t.now key)) }
{
    let n = ask::count(t, key);
    let judged = ask::judge(t, key);
    let judgement = judged.judgement;
    let number = answers::number_of(judgement);
    let position = answers::position_of(judgement);
    put_line(page, key, n, number, position);
}

// Lays the lines of the held keys, rising.
fn put_keys(t: &Table, page: &mut Page)
    ensures { Laid page.old page.new (key_lines (edition_in t.now) (map_in t.now) (held_keys t.now)) }
{
    for key in lookup::keys(t) {
        put_key(t, page, key);
    }
}

// Lays the last line.
pub fn put_last(page: &mut Page, c: Counts, left: usize)
    ensures { Laid page.old page.new (last_line c left) }
{
    page.bytes(b"RECORDS ");
    page.number(c.records, b" REFUSED ");
    page.number(c.refused, b" OTHER ");
    page.number(c.other, b" LEFT ");
    page.number(left as u64, b"\n");
}

// ---- the listing

// Lays the whole listing.
fn put_listing(t: &Table, s: Tally, out: &mut [u8]) -> usize
    ensures { page result out.new ≡ put_all (page 0 out.old) (pieces_of t.now s) }
{
    let mut page = Page::new(out, 0);
    page.bytes(b"SRC DST MSG N JUDGED AT\n");
    put_keys(t, &mut page);
    let counts = s.counts;
    let left = record::left_in(s.left);
    put_last(&mut page, counts, left);
    page.at()
}

// Lays the listing over the start of `out`: 0 with its length, or 13 and nothing written where `out` is too short. 512 bytes are never too short.
pub fn finish(t: &Table, s: Tally, out: &mut [u8]) -> Answer
    ensures { outcome (in_numbers result) out.new ≡ finished t.now s out.old }
{
    let mut page = [0u8; PAGE];
    let n = put_listing(t, s, &mut page);
    text::hand_out(out, &page[..n])
}
