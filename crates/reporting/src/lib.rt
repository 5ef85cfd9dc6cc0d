// The report of a hire written to standard output, page after page: what the programs `hired` and `hires` write with. No promise can say what is written; what a page holds is promised by report and listing.
#![tactic(auto)]

use feeding::Tally;
use lookup::Table;
use message::Key;
use std::io::Result;
use tally::Cells;
use text::Page;

// Room for the header or the last line.
const LINE: usize = 128;

// Writes the first n bytes of a page.
fn write<P: Print>(out: &P, page: &[u8], n: usize) -> Result<()> {
    let n = lines::front(n, page);
    out.write_all(&page[..n])
}

fn write_header<P: Print>(out: &P) -> Result<()> {
    let mut bytes = [0u8; LINE];
    let mut page = Page::new(&mut bytes, 0);
    report::put_header(&mut page);
    let n = page.at();
    write(out, &bytes, n)
}

fn write_key<P: Print>(out: &P, t: &Table, acc: &Cells, limit: u32, key: Key) -> Result<()> {
    let mut bytes = [0u8; report::PAGE];
    let mut page = Page::new(&mut bytes, 0);
    report::put_key(t, acc, limit, key, &mut page);
    let n = page.at();
    write(out, &bytes, n)
}

// The held keys.
fn write_keys<P: Print>(out: &P, t: &Table, acc: &Cells, limit: u32) -> Result<()> {
    let mut all = Ok(());
    for key in lookup::keys(t) {
        all = all.and(write_key(out, t, acc, limit, key));
    }
    all
}

fn write_last<P: Print>(out: &P, tally: Tally) -> Result<()> {
    let mut bytes = [0u8; LINE];
    let mut page = Page::new(&mut bytes, 0);
    let counts = tally.counts;
    listing::put_last(&mut page, counts, record::left_in(tally.left));
    let n = page.at();
    write(out, &bytes, n)
}

// An error says why not the whole report was written.
pub fn write_all<P: Print>(
    out: &P,
    t: &Table,
    acc: &Cells,
    limit: u32,
    tally: Tally,
) -> Result<()> {
    let first = write_header(out);
    let keys = write_keys(out, t, acc, limit);
    let last = write_last(out, tally);
    first.and(keys).and(last)
}
