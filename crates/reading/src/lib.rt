// What the programs that a person starts read with: standard input into a buffer, or to its end as a log that a table learns from; what they say where they could not read or write; and
// the status that they end with. No promise can say which bytes came.
#![tactic(auto)]

ghost use Rattle.std.specs.Prelude.{◌≡◌, ◌<◌, if◌then◌else◌, MatchResult};
ghost use Rattle.std.specs.Process.{exit_status};
ghost use Rattle.io.specs.Counts.{IsPrefixLen};
ghost use Rattle.feeding.specs.Feed.{started};
ghost use Rattle.reading.specs.Bytes.{SomeBytes};

use feeding::Tally;
use lookup::Table;
use std::env::FillError;
use std::io::{Error, ErrorKind, Read, Result, Write};
use std::process::ExitCode;
use std::rt::{Clock, Env};
use std::time::Duration;
use std::{str, thread};

// ---- what went wrong

// Room for what the system says of an error.
const WORDS: usize = 256;

// What std says of an error of the system ends with its number, as in `Is a directory (os error 21)`; a person is told the words alone.
fn words_alone(all: &str) -> &str {
    match all.split_once(" (os error ") {
        Some((words, _)) => words,
        None => all,
    }
}

// A line on standard error says `what`, and why. Where that cannot be written either, nothing is left to say it with.
pub fn tell<R: Eprint>(rt: &R, what: &[u8], why: Error) {
    let mut room = [0u8; WORDS];
    let left = {
        let mut free = &mut room[..];
        let _ = write!(free, "{why}");
        free.len()
    };
    let n = WORDS.saturating_sub(left);
    let why = words_alone(str::from_utf8(&room[..n]).unwrap_or(""));
    let _ = match str::from_utf8(what) {
        Ok(what) => eprintln!(rt; "{what}: {why}"),
        Err(_) => eprintln!(rt; "{what:?}: {why}"),
    };
}

// ---- a read that failed

// Waits for ten milliseconds.
fn nap<R: Clock>(rt: &R) {
    thread::sleep(rt, Duration::from_millis(10));
}

// How the input goes on: more of it may follow, it has ended, or a read failed for good, which ends it too.
#[derive(Clone, Copy, PartialEq, Eq)]
pub enum Flow {
    More,
    Ended,
    Failed,
}

// How it goes on just after a read that failed; where for good, a line on standard error says `what` and why. Standard input that another process has made
// non-blocking says WouldBlock while it has nothing yet.
fn after<R: Clock + Eprint>(rt: &R, what: &[u8], why: Error) -> Flow {
    match why.kind() {
        ErrorKind::WouldBlock => {
            nap(rt);
            Flow::More
        }
        ErrorKind::Interrupted => Flow::More,
        _ => {
            tell(rt, what, why);
            Flow::Failed
        }
    }
}

// ---- into a buffer

// What reading has come to: so many bytes at the start of a buffer, and how the input goes on.
// Kept: a number of bytes and no slice: the buffer is the caller's, who lends it on, and there is no heap here for a Vec.
#[derive(Clone, Copy)]
pub struct Chunk {
    pub n: usize,
    pub flow: Flow,
}

// Reads once, over the start of a buffer. A read that fails for good ends the input there.
fn once<R: Input + Clock + Eprint>(rt: &R, buffer: &mut [u8], what: &[u8]) -> Chunk
    ensures { IsPrefixLen result.n buffer.new }
{
    match rt.reader().read(buffer) {
        Ok(0) => Chunk {
            n: 0,
            flow: Flow::Ended,
        },
        Ok(n) => Chunk {
            n,
            flow: Flow::More,
        },
        Err(why) => Chunk {
            n: 0,
            flow: after(rt, what, why),
        },
    }
}

// Reads until the buffer is full, the input ends, or a read fails for good; a line on standard error then says `what` and why. A proved loop has to end, so it counts
// its turns, up to a number that no input uses up.
pub fn fill<R: Input + Clock + Eprint>(rt: &R, buffer: &mut [u8], what: &[u8]) -> Chunk
    ensures { IsPrefixLen result.n buffer.new }
{
    let mut n = 0;
    let mut flow = Flow::More;
    // Kept: an input has no length that is known before, so no loop over it ends by itself. The loops that read on, here and in the programs, count turns in the same way.
    for _ in 0..u64::MAX {
        if flow != Flow::More || buffer.len() <= n {
            break;
        }
        let chunk = once(rt, &mut buffer[n..], what);
        n += chunk.n;
        flow = chunk.flow;
    }
    Chunk { n, flow }
}

// ---- a log

// A log that is read, up to here: its tally, and how it goes on.
#[derive(Clone, Copy)]
pub struct Taken {
    pub tally: Tally,
    pub flow: Flow,
}

// Feeds the next 64 KB to a table.
fn feed_on<R: Input + Clock + Eprint>(rt: &R, t: &mut Table, tally: Tally, what: &[u8]) -> Taken
    ensures { SomeBytes t.old tally t.new result.tally }
{
    let mut buffer = io::large_buffer();
    let chunk = fill(rt, &mut buffer, what);
    let n = chunk.n;
    let tally = feeding::feed(t, tally, &buffer[..n]);
    Taken {
        tally,
        flow: chunk.flow,
    }
}

// Reads a log to its end and feeds it to a table, of which nothing else is kept but the tally. A read that fails for good ends the log there.
pub fn log<R: Input + Clock + Eprint>(rt: &R, t: &mut Table, what: &[u8]) -> Taken
    ensures { SomeBytes t.old started t.new result.tally }
{
    let mut taken = feed_on(rt, t, feeding::start(), what);
    for _ in 0..u64::MAX {
        if taken.flow != Flow::More {
            break;
        }
        let tally = taken.tally;
        taken = feed_on(rt, t, tally, what);
    }
    taken
}

// ---- what was asked

// Whether the program was given such an argument; argument 0 is its own name.
pub fn has_argument<R: Env>(rt: &R, i: usize) -> bool {
    let mut room = [0u8; 1];
    match rt.arg(i, &mut room) {
        Ok(_) | Err(FillError::TooLong) => true,
        Err(FillError::NotPresent) => false,
    }
}

// ---- the end

// What a shell gives as the status of a program that SIGPIPE ended. std keeps that signal off, and a write fails in its place; the scripts say that the reader is gone (tools/program.sh).
const READER_GONE: u8 = 141;

// The exit status: 0 where everything was read and everything written, and else 1.
pub fn done(all: bool) -> ExitCode
    ensures { exit_status result ≡ (if all then 0 else 1) }
{
    if all {
        ExitCode::SUCCESS
    } else {
        ExitCode::FAILURE
    }
}

// The same of a program that wrote to standard output; where it could not, a line on standard error says `what` and why, but where the reader of the output is gone, no line does.
pub fn ended<R: Eprint>(rt: &R, whole: bool, written: Result<()>, what: &[u8]) -> ExitCode
    ensures { MatchResult written (λ _. exit_status result ≡ (if whole then 0 else 1)) (λ _. 0 < exit_status result) }
{
    match written {
        Ok(()) => done(whole),
        Err(why) => {
            if why.kind() == ErrorKind::BrokenPipe {
                return ExitCode::from(READER_GONE);
            }
            tell(rt, what, why);
            done(false)
        }
    }
}
