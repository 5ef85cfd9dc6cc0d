// Reports on the log of a hire (./hire; 02, Req 06): the log comes on standard input, the report goes to standard output. All that matters is proved in the crates hire and report; this program only
// reads (crate reading) and writes (crate reporting), and keeps no more than the table, the tally and 64 KB of the log. With a second word as its argument, standard error is a terminal, and a line there
// counts the records while they are read.
#![tactic(auto)]

ghost use Rattle.std.specs.Prelude.{◌^◌};
ghost use Rattle.feeding.specs.Feed.{started};
ghost use Rattle.hired.specs.Bytes.{SomeHire};

use feeding::Tally;
use lookup::{Table, WORDS};
use reading::{Flow, Taken};
use std::io::Result;
use std::process::ExitCode;
use std::rt::Clock;
use tally::Cells;

// "more than 2^31 payloads of one key"
const LIMIT: u32 = 2147483648;

// So many chunks of 64 KB are read between two counts that are shown.
const SHOWN: u64 = 16;

// ---- how far it is

// Counts the records on a line that is written over itself, from time to time.
fn show<R: Eprint>(rt: &R, shown: bool, turns: u64, tally: Tally) {
    if shown && turns % SHOWN == 0 {
        let records = tally.counts.records;
        let _ = eprint!(rt; "\rhire: {records} records");
    }
}

// Ends that line, where there was one.
fn show_end<R: Eprint>(rt: &R, shown: bool, turns: u64) {
    if shown && SHOWN <= turns {
        let _ = eprintln!(rt; "");
    }
}

// ---- reading

// Feeds the next 64 KB.
fn feed_on<R: Input + Clock + Eprint>(rt: &R, t: &mut Table, acc: &mut Cells, tally: Tally) -> Taken
    ensures { SomeHire (2 ^ 31) t.old acc.old tally t.new acc.new result.tally }
{
    let mut buffer = io::large_buffer();
    let chunk = reading::fill(
        rt,
        &mut buffer,
        b"hire: reading stopped, and only what came before is reported",
    );
    let n = chunk.n;
    let tally = hire::feed(t, acc, LIMIT, tally, &buffer[..n]);
    Taken {
        tally,
        flow: chunk.flow,
    }
}

// Reads the log to its end. A proved loop has to end, so it counts its turns, up to a number that no log reaches.
fn read_log<R: Input + Clock + Eprint>(rt: &R, t: &mut Table, acc: &mut Cells, shown: bool) -> Taken
    ensures { SomeHire (2 ^ 31) t.old acc.old started t.new acc.new result.tally }
{
    let tally = feeding::start();
    let mut taken = Taken {
        tally,
        flow: Flow::More,
    };
    let mut turns = 0;
    for turn in 0..u64::MAX {
        if taken.flow != Flow::More {
            break;
        }
        let tally = taken.tally;
        taken = feed_on(rt, t, acc, tally);
        turns = turn + 1;
        let tally = taken.tally;
        show(rt, shown, turns, tally);
    }
    show_end(rt, shown, turns);
    taken
}

// An error says why not the whole report was written.
fn print<R: Print>(rt: &R, t: &Table, acc: &Cells, tally: Tally) -> Result<()> {
    reporting::write_all(rt, t, acc, LIMIT, tally)
}

fn main(rt: HostRuntime) -> ExitCode {
    let mut t = [0u64; WORDS];
    let mut acc = [0u64; tally::WORDS];
    table::empty(&mut t);
    hire::fresh(&mut acc);
    let shown = reading::has_argument(&rt, 2);
    let log = read_log(&rt, &mut t, &mut acc, shown);
    let tally = log.tally;
    let written = print(&rt, &t, &acc, tally);
    reading::ended(
        &rt,
        log.flow != Flow::Failed,
        written,
        b"hire: the report could not be written",
    )
}
