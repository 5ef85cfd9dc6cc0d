// Prints what a shelf is set from (./shelf; tools/shelf.py sets it), a line a fact: what a log taught, or, with a second word as its argument, what an image holds. Log or image
// comes on standard input. All that matters is proved in the crates that are called; of a damaged image nothing is printed, and a line on standard error says so.
//   key SOURCE DESTINATION K JUDGEMENT POSITION N TRANSPORT EDITION    a held key, rising, with its judgement and the position that this names; N and TRANSPORT (1 yes) are 0 in conflict
//   at POSITION SPN START WIDTH                                        what stands at a position of the key above; the width is 0 where the key's edition does not have the SPN
//   end RECORDS REFUSED OTHER LEFT                                     the counts of the listing, all 0 for an image: with this line the facts are whole
#![tactic(auto)]

use feeding::Tally;
use keyrow::POSITIONS;
use lookup::{Table, WORDS};
use message::Key;
use reading::Flow;
use std::io::Result;
use std::process::ExitCode;
use std::rt::Clock;

// Whether a map of n parameters uses transport. A key in conflict has n = 0, and no flag: it would go by the order of its messages.
fn transport_of(t: &Table, key: Key, n: u8) -> u64 {
    let mut spns = [0u32; POSITIONS];
    let mut starts = [0u32; POSITIONS];
    let mut widths = [0u32; POSITIONS];
    let map = open::open(t, key, &mut spns, &mut starts, &mut widths);
    u64::from(map.transport & (0 < n))
}

// The line of a position, where something stands there. An error says why it was not written.
fn print_position<R: Print>(rt: &R, t: &Table, key: Key, position: u8) -> Result<()> {
    let p = ask::parameter_at(t, key, position);
    let a = p.answer;
    if a.number != 0 { // 18: nothing stands there
        return Ok(());
    }
    lines::line(
        rt,
        b"at",
        &[
            position as u64,
            p.spn as u64,
            p.start as u64,
            p.width as u64,
        ],
    )
}

fn print_positions<R: Print>(rt: &R, t: &Table, key: Key, n: u8) -> Result<()> {
    let mut all = Ok(());
    for position in 1..=n {
        all = all.and(print_position(rt, t, key, position));
    }
    all
}

fn print_key<R: Print>(rt: &R, t: &Table, key: Key) -> Result<()> {
    let a = ask::judge(t, key);
    let j = a.judgement;
    let n = ask::count(t, key);
    let first = lines::line(
        rt,
        b"key",
        &[
            key.source as u64,
            key.destination as u64,
            key.k as u64,
            answers::number_of(j) as u64,
            answers::position_of(j) as u64,
            n as u64,
            transport_of(t, key, n),
            lookup::edition_of(t, key) as u64,
        ],
    );
    first.and(print_positions(rt, t, key, n))
}

// The held keys.
fn print_keys<R: Print>(rt: &R, t: &Table) -> Result<()> {
    let mut all = Ok(());
    for key in lookup::keys(t) {
        all = all.and(print_key(rt, t, key));
    }
    all
}

// An error says why not every line was written.
fn print<R: Print>(rt: &R, t: &Table, tally: Tally) -> Result<()> {
    let keys = print_keys(rt, t);
    let counts = tally.counts;
    let left = record::left_in(tally.left);
    let last = lines::line(
        rt,
        b"end",
        &[counts.records, counts.refused, counts.other, left as u64],
    );
    keys.and(last)
}

// Status 0 where everything was read, and every line written.
fn shown<R: Print + Eprint>(rt: &R, t: &Table, tally: Tally, whole: bool) -> ExitCode {
    let written = print(rt, t, tally);
    reading::ended(
        rt,
        whole,
        written,
        b"shelf: the facts could not be written (make room, or set TMPDIR to another folder)",
    )
}

fn of_log<R: Input + Clock + Print + Eprint>(rt: &R, t: &mut Table) -> ExitCode {
    let log = reading::log(
        rt,
        t,
        b"shelf: reading stopped, and only what came before is shown",
    );
    let tally = log.tally;
    shown(rt, t, tally, log.flow != Flow::Failed)
}

// Status 0 where the image was undamaged and every line written.
fn show<R: Print + Eprint>(rt: &R, t: &mut Table, image: &[u8]) -> ExitCode {
    let a = load::load(t, image);
    if a.number == 0 {
        return shown(rt, t, feeding::start(), true);
    }
    let _ = eprintln!(rt;
        "shelf: the image is damaged (answer 21), and nothing is shown: save it again, or leave out --image where it is a log"
    );
    reading::done(false)
}

// No image has as many bytes as the buffer, so what comes behind them need not be read: it is damaged.
fn of_image<R: Input + Clock + Print + Eprint>(rt: &R, t: &mut Table) -> ExitCode {
    let mut buffer = io::buffer();
    let image = reading::fill(
        rt,
        &mut buffer,
        b"shelf: reading stopped, and nothing is shown",
    );
    let n = image.n;
    if image.flow == Flow::Failed {
        return reading::done(false);
    }
    show(rt, t, &buffer[..n])
}

fn main(rt: HostRuntime) -> ExitCode {
    let mut t = [0u64; WORDS];
    table::empty(&mut t);
    if reading::has_argument(&rt, 2) {
        of_image(&rt, &mut t)
    } else {
        of_log(&rt, &mut t)
    }
}
