// Lists what a log taught (01, "The listing program"): the log comes on standard input, the listing goes to standard output. All that matters is proved in
// the crates feeding and listing; this program only reads (crate reading) and writes, and keeps no more than the table and the tally.
#![tactic(auto)]

use feeding::Tally;
use lookup::{Table, WORDS};
use reading::Flow;
use std::io::Result;
use std::process::ExitCode;

// An error says why not the whole listing was written.
fn print<R: Print>(rt: &R, t: &Table, tally: Tally) -> Result<()> {
    let mut page = [0u8; listing::PAGE];
    let a = listing::finish(t, tally, &mut page);
    let n = io::count(a.detail as isize, &page);
    rt.write_all(&page[..n])
}

fn main(rt: HostRuntime) -> ExitCode {
    let mut t = [0u64; WORDS];
    table::empty(&mut t);
    let log = reading::log(
        &rt,
        &mut t,
        b"list: reading stopped, and only what came before is listed",
    );
    let tally = log.tally;
    let written = print(&rt, &t, tally);
    reading::ended(
        &rt,
        log.flow != Flow::Failed,
        written,
        b"list: the listing could not be written",
    )
}
