// What one Configuration Identification Message says (01, "What one message says"; docs/WIRE.md has 002's words).
#![tactic(auto)]

ghost use Rattle.std.specs.Prelude.{◌≡◌, ◌*◌, ◌^◌, not, eqb};
ghost use Rattle.frame.specs.Frame.{pgn_of};
ghost use Rattle.message.specs.Message.{wire_of, foreign, unflagged, miscounted, misplaced, served_tests, frame_tests, data_tests, message_of, heard_of, heard_from, heard};
ghost use Rattle.message.specs.Fault.{fault_number, number_told};
ghost use Rattle.answers.specs.Tests.{first_number_of};

use frame::{Fields, Three};

// Whom a message names: k is the number of the configurable message, 1 to 15.
#[derive(Clone, Copy, PartialEq, Eq)]
pub struct Key {
    pub source: u8,
    pub destination: u8,
    pub k: u8,
}

// What it says of the whole map.
#[derive(Clone, Copy)]
pub struct Head {
    pub n: u8,
    pub proprietary: bool,
    pub transport: bool,
}

// What it says of one position; the start counts from 0.
#[derive(Clone, Copy)]
pub struct Place {
    pub spn: u32,
    pub start: u32,
}

// A well-formed message, its fields grouped by how they are compared.
#[derive(Clone, Copy)]
pub struct Message {
    pub key: Key,
    pub head: Head,
    pub position: u8,
    pub place: Place,
}

// Why a frame is refused as a message, in the order of the tests.
#[derive(Clone, Copy, PartialEq, Eq)]
pub enum Fault {
    Identifier, // above 29 bits
    OtherPgn, // than the one that the call serves
    Length,
    Source, // 254 or 255
    Foreign, // the configured PGN
    Unflagged,
    Miscounted,
    Misplaced,
}

// Its number in 01.
impl From<Fault> for u8 {
    ghost from_gives = { λ fault n. n ≡ fault_number fault };

    fn from(fault: Fault) -> u8 {
        match fault {
            Fault::Identifier => 1,
            Fault::OtherPgn => 2,
            Fault::Length => 3,
            Fault::Source => 4,
            Fault::Foreign => 5,
            Fault::Unflagged => 6,
            Fault::Miscounted => 7,
            Fault::Misplaced => 8,
        }
    }
}

// The number of a fault, 0 where there is none.
pub fn number_told(fault: Option<Fault>) -> u8
    ensures { result ≡ number_told fault }
{
    match fault {
        Some(fault) => u8::from(fault),
        None => 0,
    }
}

// The fields of the eight bytes, as they stand on the wire.
#[derive(Clone, Copy)]
pub struct Wire {
    pub pgn: u32, // bytes 1 to 3
    pub spn: u32, // bytes 4 to 6, 19 bits
    pub position: u8, // 5 bits
    pub n: u8, // 5 bits
    pub proprietary: u8, // 1 bit, and so the next two
    pub transport: u8,
    pub first: u8,
    pub start: u8, // byte 8
}

// The fields of the eight bytes.
pub fn from_bytes(d: &[u8; 8]) -> Wire
    ensures { result ≡ wire_of d.now }
{
    let pgn = frame::number_of(Three {
        first: d[0],
        second: d[1],
        third: d[2],
    });
    let spn_bytes = Three {
        first: d[3],
        second: d[4],
        third: d[5],
    };
    let spn = frame::spn_of(spn_bytes);
    let position = frame::rest_of(spn_bytes);
    Wire {
        pgn,
        spn,
        position,
        n: d[6] % 32,
        proprietary: d[6] / 128,
        transport: d[6] / 64 % 2,
        first: d[6] / 32 % 2,
        start: d[7],
    }
}

// Whether a configured PGN is none of the fifteen.
pub fn is_foreign(pgn: u32) -> bool
    ensures { result ≡ foreign pgn }
{
    (pgn < 45312) | (48896 < pgn) | (pgn % 256 != 0)
}

// Whether a flag is neither yes nor no.
pub fn is_unflagged(proprietary: u8, transport: u8, first: u8) -> bool
    ensures { result ≡ unflagged proprietary transport first }
{
    (1 < proprietary) | (1 < transport) | (1 < first)
}

// Whether n or the position is out of range, or first-only stands at another position than 1.
pub fn is_miscounted(n: u8, position: u8, first: u8) -> bool
    ensures { result ≡ miscounted n position first }
{
    (n == 0) | (64 < n) | (position == 0) | (n < position) | ((first == 1) & (position != 1))
}

// Whether a starting bit of the wire names no bit of a payload: 01's limit, which is idle here, and the wire's own.
pub fn is_misplaced(start: u32) -> bool
    ensures { result ≡ misplaced start }
{
    (start == 0) | (14280 < start) | (250 < start)
}

// The PF of a Configuration Identification Message, whose PGN is 45056.
const CONFIGURATION: u8 = 176;

// Whether a frame's PGN is 256 times this PF. Below 240 PS is no part of the PGN, so that the three fields above it say all; from there on PS has to be 0.
pub fn is_of(pf: u8, f: Fields) -> bool
    ensures { result ≡ eqb (pgn_of f) (pf * 2 ^ 8) }
{
    (f.reserved == 0) & (f.page == 0) & (f.pf == pf) & ((pf < 240) | (f.ps == 0))
}

// For later calls on a frame: the first of 1, 2 (by the PGN that a call serves, 256 times a PF) and 3 that applies. No data byte is asked for.
pub fn served_fault(pf: u8, id: u32, len: u8, f: Fields) -> Option<Fault>
    ensures { number_told result ≡ first_number_of (served_tests (pf * 2 ^ 8) id len f) 0 }
{
    if frame::GREATEST < id {
        return Some(Fault::Identifier);
    }
    if !is_of(pf, f) {
        return Some(Fault::OtherPgn);
    }
    if len != 8 {
        return Some(Fault::Length);
    }
    None
}

// Whether one of them applies: one comparison, for calls that ask for the number only where there is one.
pub fn is_refused(pf: u8, id: u32, len: u8, f: Fields) -> bool
    ensures { result ≡ not (eqb (first_number_of (served_tests (pf * 2 ^ 8) id len f) 0) 0) }
{
    (frame::GREATEST < id) | !is_of(pf, f) | (len != 8)
}

// The first of 1 to 4 that applies. No data byte is asked for.
pub fn frame_fault(id: u32, len: u8, f: Fields) -> Option<Fault>
    ensures { number_told result ≡ first_number_of (frame_tests id len f) 0 }
{
    if let Some(fault) = served_fault(CONFIGURATION, id, len, f) {
        return Some(fault);
    }
    if 254 <= f.source {
        return Some(Fault::Source);
    }
    None
}

// The first of 5 to 8 that applies.
pub fn data_fault(w: Wire) -> Option<Fault>
    ensures { number_told result ≡ first_number_of (data_tests w) 0 }
{
    if is_foreign(w.pgn) {
        return Some(Fault::Foreign);
    }
    if is_unflagged(w.proprietary, w.transport, w.first) {
        return Some(Fault::Unflagged);
    }
    if is_miscounted(w.n, w.position, w.first) {
        return Some(Fault::Miscounted);
    }
    if is_misplaced(w.start as u32) {
        return Some(Fault::Misplaced);
    }
    None
}

// What is kept of a well-formed message: first-only is not, priority is not.
pub fn kept(f: Fields, w: Wire) -> Message
    ensures { result ≡ message_of f w }
{
    let destination = frame::destination(f);
    let k = (w.pgn / 256 % 256).saturating_sub(176);
    let start = (w.start as u32).saturating_sub(1);
    Message {
        key: Key {
            source: f.source,
            destination,
            k: k as u8,
        },
        head: Head {
            n: w.n,
            proprietary: w.proprietary == 1,
            transport: w.transport == 1,
        },
        position: w.position,
        place: Place { spn: w.spn, start },
    }
}

// The answer to the eight bytes of a frame that passed 1 to 4.
pub fn from_wire(f: Fields, w: Wire) -> Result<Message, Fault>
    ensures { heard_of result ≡ heard_from (first_number_of (data_tests w) 0) f w }
{
    match data_fault(w) {
        Some(fault) => Err(fault),
        None => Ok(kept(f, w)),
    }
}

// The answer to any frame. Answers 1 to 4 are given before a data byte is read.
// Kept: identifier, length and the eight bytes by themselves, here and in the rooms above that take a frame: C lends them so (include/yendrolf.h).
pub fn decode(id: u32, len: u8, d: &[u8; 8]) -> Result<Message, Fault>
    ensures { heard_of result ≡ heard id len d.now }
{
    let f = frame::split(id);
    match frame_fault(id, len, f) {
        Some(fault) => Err(fault),
        None => from_wire(f, from_bytes(d)),
    }
}
