// Prints which records of a log were refused, or contradict others of their key, and with what answer (./why; tools/shelf.py says it in words). The log comes on standard
// input. All that matters is proved in the crates that are called.
//   no RECORD ANSWER SOURCE DESTINATION PGN    a record, counted from 1, and its answer: 1, 3 to 9 or 10; source and destination by its identifier, the PGN in its first data bytes
//   end RECORDS OTHER LEFT                     how many records there are, how many of another PGN (answer 2), and the bytes of a cut last one: with this line the facts are whole
#![tactic(auto)]

use lookup::{Table, WORDS};
use reading::Flow;
use record::SIZE;
use std::io::Result;
use std::process::ExitCode;
use std::rt::Clock;

// 5,040 records: a buffer that is full ends with a record.
const ROOM: usize = 65520;

// What there is to tell of the records up to here: how many there are, how many of another PGN, and whether every line was written, or why not.
#[derive(Clone, Copy)]
struct Told {
    records: u64,
    other: u64,
    written: Result<()>,
}

// The same of a log that is read, with the bytes of a record that is not whole, and how the log goes on.
#[derive(Clone, Copy)]
struct Log {
    told: Told,
    left: usize,
    flow: Flow,
}

// The line of a record, where it was refused or contradicts. An error says why it was not written.
fn print<R: Print>(rt: &R, number: u64, answer: u8, id: u32, bytes: &[u8; 8]) -> Result<()> {
    if (answer == 0) | (answer == 2) {
        return Ok(());
    }
    let fields = frame::split(id);
    let wire = message::from_bytes(bytes);
    lines::line(
        rt,
        b"no",
        &[
            number,
            answer as u64,
            fields.source as u64,
            frame::destination(fields) as u64,
            wire.pgn as u64,
        ],
    )
}

// One record more: its frame is learned from, and the answer told.
fn tell<R: Print>(rt: &R, t: &mut Table, before: Told, r: &[u8]) -> Told {
    let f = record::read(r);
    let bytes = f.bytes;
    let a = table::learn(t, f.id, f.len, &bytes);
    let records = before.records.wrapping_add(1);
    let written = print(rt, records, a.number, f.id, &bytes);
    let written = before.written.and(written);
    let mut other = before.other;
    if a.number == 2 {
        other = other.wrapping_add(1);
    }
    Told {
        records,
        other,
        written,
    }
}

// The whole records of a chunk, one after another.
fn tell_all<R: Print>(rt: &R, t: &mut Table, before: Told, s: &[u8]) -> Told {
    let mut told = before;
    for r in s.chunks_exact(SIZE) {
        told = tell(rt, t, told, r);
    }
    told
}

fn read_on<R: Input + Clock + Print + Eprint>(rt: &R, t: &mut Table, before: Told) -> Log {
    let mut buffer = [0u8; ROOM];
    let chunk = reading::fill(
        rt,
        &mut buffer,
        b"why: reading stopped, and only what came before is told",
    );
    let n = chunk.n;
    let told = tell_all(rt, t, before, &buffer[..n]);
    Log {
        told,
        left: n % SIZE,
        flow: chunk.flow,
    }
}

// An error says why not every line was written, the last one too.
fn end<R: Print>(rt: &R, log: Log) -> Result<()> {
    let told = log.told;
    let last = lines::line(rt, b"end", &[told.records, told.other, log.left as u64]);
    told.written.and(last)
}

// A proved loop has to end, so it counts its turns, up to a number that no log uses up.
fn main(rt: HostRuntime) -> ExitCode {
    let mut t = [0u64; WORDS];
    table::empty(&mut t);
    let told = Told {
        records: 0,
        other: 0,
        written: Ok(()),
    };
    let mut log = Log {
        told,
        left: 0,
        flow: Flow::More,
    };
    for _ in 0..u64::MAX {
        if log.flow != Flow::More {
            break;
        }
        let told = log.told;
        log = read_on(&rt, &mut t, told);
    }
    let written = end(&rt, log);
    reading::ended(
        &rt,
        log.flow != Flow::Failed,
        written,
        b"why: the facts could not be written (make room, or set TMPDIR to another folder)",
    )
}
