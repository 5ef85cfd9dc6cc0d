// Saves what a log taught as an image (02, Req 01): the log comes on standard input, the image goes to standard output. All that matters is proved in the crates feeding
// and save; this program only reads (crate reading) and writes. Where the log can't be read to its end, it writes nothing: an image is whole or not there.
#![tactic(auto)]

use lookup::{Table, WORDS};
use reading::Flow;
use std::io::Result;
use std::process::ExitCode;

// An error says why not the whole image was written. No table that a log teaches has a longer one than the buffer.
fn print<R: Print>(rt: &R, t: &Table) -> Result<()> {
    let mut image = [0u8; save::MOST];
    save::save(t, &mut image);
    let n = save::size(t).min(save::MOST);
    rt.write_all(&image[..n])
}

fn main(rt: HostRuntime) -> ExitCode {
    let mut t = [0u64; WORDS];
    table::empty(&mut t);
    let log = reading::log(&rt, &mut t, b"save: reading stopped, and nothing is saved");
    if log.flow == Flow::Failed {
        return reading::done(false);
    }
    let written = print(&rt, &t);
    reading::ended(&rt, true, written, b"save: the image could not be written")
}
