// Replays a day through the bridge (02, Req 09): the trace comes on standard input, what came of it goes to standard output. All that matters is proved in the crates trace, bridge and
// replaying; this program only reads (crate reading) and writes, and keeps no more than counters, queues, filters and the tally, however long the trace is.
#![tactic(auto)]

ghost use Rattle.bridge.specs.Bridge.{bridge};
ghost use Rattle.replaying.specs.Feed.{started};
ghost use Rattle.replay.specs.Bytes.{SomeTrace};

use bridge::{COUNTERS, CounterWords, QUEUES, QueueWords};
use ports::{Filters, WORDS};
use reading::Flow;
use replaying::Tally;
use std::io::Result;
use std::process::ExitCode;
use std::rt::Clock;

// A trace that is read, up to here: its tally, and how it goes on.
#[derive(Clone, Copy)]
struct Taken {
    tally: Tally,
    flow: Flow,
}

// Feeds the next 64 KB to the bridge.
fn feed_on<R: Input + Clock + Eprint>(
    rt: &R,
    c: &mut CounterWords,
    q: &mut QueueWords,
    w: &mut Filters,
    tally: Tally,
) -> Taken
    ensures { SomeTrace (bridge c.old q.old) w.old tally (bridge c.new q.new) w.new result.tally }
{
    let mut buffer = io::large_buffer();
    let chunk = reading::fill(
        rt,
        &mut buffer,
        b"replay: reading stopped, and only what came before is replayed",
    );
    let n = chunk.n;
    let tally = replaying::feed(c, q, w, tally, &buffer[..n]);
    Taken {
        tally,
        flow: chunk.flow,
    }
}

// Reads a trace to its end and feeds it to the bridge. A read that fails for good ends the trace there. A proved loop has to end, so it counts its turns, up to a number that no
// input uses up.
fn day<R: Input + Clock + Eprint>(
    rt: &R,
    c: &mut CounterWords,
    q: &mut QueueWords,
    w: &mut Filters,
) -> Taken
    ensures { SomeTrace (bridge c.old q.old) w.old started (bridge c.new q.new) w.new result.tally }
{
    let mut taken = feed_on(rt, c, q, w, replaying::start());
    for _ in 0..u64::MAX {
        if taken.flow != Flow::More {
            break;
        }
        let tally = taken.tally;
        taken = feed_on(rt, c, q, w, tally);
    }
    taken
}

// An error says why not the whole text was written.
fn print<R: Print>(rt: &R, c: &CounterWords, q: &QueueWords, tally: Tally) -> Result<()> {
    let mut page = [0u8; replaying::PAGE];
    let a = replaying::finish(c, q, tally, &mut page);
    let n = io::count(a.detail as isize, &page);
    rt.write_all(&page[..n])
}

fn main(rt: HostRuntime) -> ExitCode {
    let mut c = [0u64; COUNTERS];
    let mut q = [0u64; QUEUES];
    let mut w = [0u32; WORDS];
    bridge::fresh(&mut c, &mut q);
    ports::fresh(&mut w);
    let taken = day(&rt, &mut c, &mut q, &mut w);
    let tally = taken.tally;
    let written = print(&rt, &c, &q, tally);
    reading::ended(
        &rt,
        taken.flow != Flow::Failed,
        written,
        b"replay: the replay could not be written",
    )
}
