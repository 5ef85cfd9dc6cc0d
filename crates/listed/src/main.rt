// Lists what an image holds (02, Req 01): the image comes on standard input, and the listing of a fresh table that has loaded it goes to standard output, as
// a log's does. All that matters is proved in the crates load and listing. Of a damaged image nothing is listed, and a line on standard error says so.
#![tactic(auto)]

use lookup::{Table, WORDS};
use reading::Flow;
use std::io::Result;
use std::process::ExitCode;

// An error says why not the whole listing was written.
fn print<R: Print>(rt: &R, t: &Table) -> Result<()> {
    let mut page = [0u8; listing::PAGE];
    let a = listing::finish(t, feeding::start(), &mut page);
    let n = io::count(a.detail as isize, &page);
    rt.write_all(&page[..n])
}

// Status 0 where the image was undamaged and all of its listing written.
fn list<R: Print + Eprint>(rt: &R, image: &[u8]) -> ExitCode {
    let mut t = [0u64; WORDS];
    table::empty(&mut t);
    let a = load::load(&mut t, image);
    if a.number == 0 {
        let written = print(rt, &t);
        return reading::ended(rt, true, written, b"list: the listing could not be written");
    }
    let _ = eprintln!(rt; "list: the image is damaged, and nothing is listed");
    reading::done(false)
}

// No image has as many bytes as the buffer, so what comes behind them need not be read: it is damaged.
fn main(rt: HostRuntime) -> ExitCode {
    let mut buffer = io::buffer();
    let image = reading::fill(
        &rt,
        &mut buffer,
        b"list: reading stopped, and nothing is listed",
    );
    let n = image.n;
    if image.flow == Flow::Failed {
        return reading::done(false);
    }
    list(&rt, &buffer[..n])
}
