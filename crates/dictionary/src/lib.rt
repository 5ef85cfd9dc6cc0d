// The two dictionaries, that of 2010 (002) and the older one of 2004 (000; 02, Req 10): where an SPN stands in the first, and how wide its parameter is in either (01, "A
// set and its judgement"). Any SPN may be asked. The rows are the crate rows', the test of their rule is the crate rowrule's; what the rule gives at each row, and the laws of
// a look-up, stand in proofs/, once for any rows. The rows are lent to the private functions, and to nobody else.
#![tactic(auto)]

ghost use Rattle.std.specs.Prelude.{◌≡◌, cond, ◌≤◌};
ghost use Rattle.dictionary.specs.Dictionary.{width_in, number_in, found_row, entry_row, entry_width, number_of, width_of, width_by, widths_over, Lent};

use rowrule::Row;

// The edition that has its own rows; any other number has those of 2010.
// Kept: a number, as keyrow says; this room stands below keyrow.
const EDITION_2004: u32 = 2004;

// What one look-up gives of an SPN that the dictionary has: its row, by the number from 0, and the width of its parameter.
#[derive(Clone, Copy)]
pub struct Entry {
    pub row: usize,
    pub width: u32,
}

// ---- in rows that are lent

// What a turn of halving goes down by: half of the rows that are left, or nothing. A step that is subtracted compiles to fewer jumps than a branch that
// sets the place, and a jump of a search is one that no processor foresees (docs/landings/req-02.md).
fn step(down: bool, half: usize) -> usize
    ensures { (result ≡ cond down half 0) × (result ≤ half) }
{
    if down {
        return half;
    }
    0
}

// Where the SPN stands in a dictionary, whose rows are lent. The promise says nothing of the way: here by halving. n rows are left, the last of
// them at `hi`, and a turn leaves half of them, rounded up: 140 rows take 8 turns (law table-turns).
// Kept: the number of turns is promised (docs/PROMISES.md, "halve the dictionary"), and no clause of std's `binary_search_by` says how many tests it makes.
fn row_in(rows: &[Row], spn: u32) -> Option<usize>
    requires { Lent rows.now }
    ensures { found_row result ≡ number_in rows.now spn }
{
    let mut hi = rows.len() - 1;
    let mut n = rows.len();
    while 1 < n {
        let half = n / 2;
        let row = rows[hi - half];
        hi -= step(spn <= u32::from(row.spn), half);
        n -= half;
    }
    let row = rows[hi];
    if u32::from(row.spn) == spn {
        return Some(hi);
    }
    None
}

// The row that has the SPN by the same rows, and its width.
// Kept: `Lent` as a clause of four private functions, and no struct around the rows: the two tables are the only rows there are, and each is lent by its own call.
fn entry_in(rows: &[Row], spn: u32) -> Option<Entry>
    requires { Lent rows.now }
    ensures { (entry_row result ≡ number_in rows.now spn) × (entry_width result ≡ width_in rows.now spn) }
{
    let row = row_in(rows, spn)?;
    Some(Entry {
        row,
        width: u32::from(rows[row].width),
    })
}

// The width alone; 0 where no row has the SPN.
fn width_in(rows: &[Row], spn: u32) -> u32
    requires { Lent rows.now }
    ensures { result ≡ width_in rows.now spn }
{
    match entry_in(rows, spn) {
        Some(entry) => entry.width,
        None => 0,
    }
}

// The widths of many SPNs.
fn widths_in(rows: &[Row], spns: &[u32], widths: &mut [u32])
    requires { Lent rows.now }
    ensures { widths.new ≡ widths_over (width_in rows.now) spns.now widths.old }
{
    for i in 0..spns.len().min(widths.len()) {
        widths[i] = width_in(rows, spns[i]);
    }
}

// ---- in the dictionary of 2010

// Where the SPN stands in the dictionary.
pub fn row_of(spn: u32) -> Option<usize>
    ensures { found_row result ≡ number_of spn }
{
    row_in(rows::all(), spn)
}

// Where the SPN stands in the dictionary, and its width, by one look-up.
pub fn entry_of(spn: u32) -> Option<Entry>
    ensures { (entry_row result ≡ number_of spn) × (entry_width result ≡ width_of spn) }
{
    entry_in(rows::all(), spn)
}

// ---- in that of an edition

// The width of the SPN's parameter in bits, and 0 where the edition's dictionary hasn't it; at most 32 (law width-most).
// Kept: 0, and no Option, since 0 is what C is told of such an SPN (`width_by`). And two calls, here and in `widths_of`, in place of one slice that is picked by the edition: a
// search is compiled for the number of rows of its table, and eight widths took more than twice as long through one slice for both.
pub fn width_of(edition: u32, spn: u32) -> u32
    ensures { result ≡ width_by edition spn }
{
    if edition == EDITION_2004 {
        return width_in(rows::all_2004(), spn);
    }
    width_in(rows::all(), spn)
}

// The widths of many SPNs: that of each is laid over the start of `widths`, as far as both reach.
pub fn widths_of(edition: u32, spns: &[u32], widths: &mut [u32])
    ensures { widths.new ≡ widths_over (width_by edition) spns.now widths.old }
{
    if edition == EDITION_2004 {
        widths_in(rows::all_2004(), spns, widths);
        return;
    }
    widths_in(rows::all(), spns, widths);
}
