// The transport protocol's long messages put together (02, Req 14; J1939-21): a request to send opens the session of its source and destination, and each packet
// brings seven bytes, until the last one hands the payload out. Eight sessions lie in memory that the caller lends, their head words and 1,785 bytes for each
// (specs/Rows.antt). Whatever that memory holds, each call has its defined answer: a word is compared before it is used, and no index goes by one.
#![tactic(auto)]

ghost use Rattle.std.specs.Prelude.{◌≡◌, ◌+◌, ◌*◌, ◌-◌, ◌^◌, ◌≤◌, ◌<◌, take, unwrap_or, IfSome};
ghost use Rattle.words.specs.Rows.{row_at, put_at};
ghost use Rattle.answers.specs.Answers.{in_numbers, plain, outcome};
ghost use Rattle.answers.specs.Tests.{first_number_of};
ghost use Rattle.message.specs.Message.{served_tests};
ghost use Rattle.splice.specs.Splice.{splice, covered};
ghost use Rattle.session.specs.Session.{most_bytes, mismatched, is_next, is_last};
ghost use Rattle.session.specs.Cut.{size_said, pgn_said, seven_of};
ghost use Rattle.transport.specs.Rows.{sessions, head_words, memory, fresh_heads, pair_number, row_with};
ghost use Rattle.transport.specs.Calls.{holder_in, request_tests, number_said, place_for, open_row, opens, requested, arrived_as, takes_at, arrived};

use answers::Answer;
use frame::{Fields, Three};
use message::{Fault, number_told};

// How many sessions there are at one time.
pub const SESSIONS: usize = 8;

// The head words that the caller lends, four for each session.
pub const WORDS: usize = 32;

// The bytes of the longest payload: 255 packets of seven.
pub const MOST: usize = 1785;

// The bytes that the caller lends, as many for each session.
pub const BYTES: usize = 14280;

// Head words and bytes of all sessions, and room for one payload, as the caller lends them.
pub type Heads = [u64; WORDS];

pub type Bytes = [u8; BYTES];

pub type Payload = [u8; MOST];

// A session's words.
const ROW_WORDS: usize = 4;

const HOLDER: usize = 0; // which pair of addresses has it

const NEXT: usize = 1; // the number of the packet that comes next

const SIZE: usize = 2; // how many bytes the payload has

const PGN: usize = 3; // and its PGN

// The holder of a row that no pair has.
const NOBODY: u64 = 0;

// The PFs of a request to send and of a packet: their PGNs, 60416 and 60160, are 256 times these.
const REQUEST_PF: u8 = 236;

const PACKET_PF: u8 = 235;

// The control byte of a request to send.
const TO_SEND: u8 = 16;

// What a packet is answered, and beside it the PGN of the payload that it finished, 0 where it finished none.
// Kept: the C interface has the PGN as a number beside the answer, 0 where there is none (yendrolf_sessions_packet).
#[derive(Clone, Copy)]
pub struct Arrived {
    pub answer: Answer,
    pub pgn: u32,
}

// ---- frames

// The holder that two addresses are: 1 above their number, so that it is never nobody.
// Kept: a number, since C lends the words that it stands in.
fn holder_of(source: u8, destination: u8) -> u64
    ensures { result ≡ pair_number source destination + 1 }
{
    source as u64 * 256 + destination as u64 + 1
}

// The pair of a frame, its source and its destination, as a holder.
fn holder_in(f: Fields) -> u64
    ensures { result ≡ holder_in f }
{
    holder_of(f.source, frame::destination(f))
}

// The number of a frame that a call refuses. A call may be given every frame of the wires, and refuses most.
// Kept: beside message::served_fault, of which the compiler makes jumps here, and which takes is_refused's one comparison apart. Here all tests are asked before the first is looked at, and the
// number is chosen without a jump (docs/BENCH.md, "Since the look back").
fn refused_as(pf: u8, id: u32, len: u8, f: Fields) -> u8
    ensures { result ≡ first_number_of (served_tests (pf * 2 ^ 8) id len f) 0 }
{
    let no_identifier = frame::GREATEST < id;
    let other = !message::is_of(pf, f);
    let no_length = len != 8;
    number_told(if no_identifier {
        Some(Fault::Identifier)
    } else if other {
        Some(Fault::OtherPgn)
    } else if no_length {
        Some(Fault::Length)
    } else {
        None
    })
}

// The lowest row with this holder.
fn row_with(heads: &Heads, holder: u64) -> Option<usize>
    ensures number { unwrap_or result 8 ≡ row_with heads.now holder }
    ensures below { IfSome result (λ i. i < 8) }
{
    for i in 0..SESSIONS {
        if heads[i * ROW_WORDS] == holder {
            return Some(i);
        }
    }
    None
}

// ---- a request to send

// Why a request to send is refused.
#[derive(Clone, Copy, PartialEq, Eq)]
enum Refusal {
    NotToSend,
    Mismatched,
    AllTaken,
}

// The number that 02 has for the answer: 0, or that of the refusal.
// Kept: one function of both, as an answer is a number in the end.
fn number_said(done: Result<(), Refusal>) -> u8
    ensures { result ≡ number_said done }
{
    match done {
        Ok(()) => 0,
        Err(Refusal::NotToSend) => 24,
        Err(Refusal::Mismatched) => 31,
        Err(Refusal::AllTaken) => 30,
    }
}

// Whether a size is outside 9 to 1,785, or is not carried by so many packets.
fn is_mismatched(size: u16, packets: u8) -> bool
    ensures { result ≡ mismatched size packets }
{
    (size < 9) | (1785 < size) | (packets as u32 != (size as u32 + 6) / 7)
}

// The size that a request says.
fn size_said(d: &[u8; 8]) -> u16
    ensures { result ≡ size_said d.now }
{
    u16::from_le_bytes([d[1], d[2]])
}

// The PGN of the payload that it announces.
fn pgn_said(d: &[u8; 8]) -> u32
    ensures { result ≡ pgn_said d.now }
{
    frame::number_of(Three {
        first: d[5],
        second: d[6],
        third: d[7],
    })
}

// Whether the data of a request can begin a session.
fn tested(d: &[u8; 8]) -> Result<(), Refusal>
    ensures { number_said result ≡ first_number_of (request_tests d.now) 0 }
{
    if d[0] != TO_SEND {
        return Err(Refusal::NotToSend);
    }
    if is_mismatched(size_said(d), d[3]) {
        return Err(Refusal::Mismatched);
    }
    Ok(())
}

// Where a holder's session goes: into its own row, else into the lowest that nobody holds.
fn place_for(heads: &Heads, holder: u64) -> Option<usize>
    ensures number { unwrap_or result 8 ≡ place_for heads.now holder }
    ensures below { IfSome result (λ i. i < 8) }
{
    match row_with(heads, holder) {
        Some(i) => Some(i),
        None => row_with(heads, NOBODY),
    }
}

// A session begins in row i.
// Kept: four stores: `copy_from_slice` of an array asks first whether the two overlap, and a request to send takes 114 instructions in place of 90 (bench/count).
fn open_at(heads: &mut Heads, i: usize, holder: u64, size: u64, pgn: u64)
    requires { i < sessions }
    ensures { heads.new ≡ put_at head_words heads.old i (open_row holder size pgn) }
{
    let a = i * ROW_WORDS;
    let row = &mut heads[a..a + ROW_WORDS];
    row[HOLDER] = holder;
    row[NEXT] = 1;
    row[SIZE] = size;
    row[PGN] = pgn;
}

// A holder's session begins, where there is a row for it.
fn begin(heads: &mut Heads, holder: u64, size: u64, pgn: u64) -> Result<(), Refusal>
    ensures { outcome (plain (number_said result)) heads.new ≡ opens heads.old holder size pgn }
{
    let Some(i) = place_for(heads, holder) else {
        return Err(Refusal::AllTaken);
    };
    open_at(heads, i, holder, size, pgn);
    Ok(())
}

// Takes a frame that may be a request to send: 1, 2, 3, 24, 31, 30, else 0, and the session of its source and destination begins anew.
pub fn request(heads: &mut Heads, id: u32, len: u8, d: &[u8; 8]) -> Answer
    ensures { outcome (in_numbers result) heads.new ≡ requested heads.old id len d.now }
{
    let f = frame::split(id);
    if message::is_refused(REQUEST_PF, id, len, f) {
        return answers::plainly(refused_as(REQUEST_PF, id, len, f));
    }
    if let Err(refusal) = tested(d) {
        return answers::plainly(number_said(Err(refusal)));
    }
    let begun = begin(heads, holder_in(f), size_said(d) as u64, pgn_said(d) as u64);
    answers::plainly(number_said(begun))
}

// ---- a packet

// An answer that finishes no payload.
fn briefly(number: u8) -> Arrived
    ensures { (in_numbers result.answer ≡ plain number) × (result.pgn ≡ 0) }
{
    Arrived {
        answer: answers::plainly(number),
        pgn: 0,
    }
}

// Whether packet n is the one that comes next. Packets are counted from 1: 0 is none.
fn is_next(next: u64, n: u8) -> bool
    ensures { result ≡ is_next next n }
{
    (0 < n) & (next == n as u64)
}

// Whether n packets carry so many bytes.
fn is_last(size: u64, n: u8) -> bool
    ensures { result ≡ is_last size n }
{
    size <= 7 * n as u64
}

// The seven bytes of a packet, by value: laid from there they are three moves, and not one for each byte.
fn seven_of(d: &[u8; 8]) -> [u8; 7]
    ensures { result ≡ seven_of d.now }
{
    let [_, a, b, c, e, f, g, h] = *d;
    [a, b, c, e, f, g, h]
}

// Lays the seven bytes of packet n where they stand in the payload, in the bytes of row i.
fn lay_seven(bytes: &mut Bytes, i: usize, n: u8, d: &[u8; 8])
    requires { (i < sessions) × (0 < n) }
    ensures { bytes.new ≡ put_at most_bytes bytes.old i (splice (row_at most_bytes bytes.old i) (7 * (n - 1)) (seven_of d.now)) }
{
    let a = i * MOST;
    let e = a + MOST;
    let seven = seven_of(d);
    splice::copy_at(&mut bytes[a..e], 7 * (n as usize - 1), &seven);
}

// Lays bytes over the start of a payload, as far as both reach.
// Kept: a loop and no splice::copy_in, of which the compiler makes a call of memmove here, since it knows no size: the archive needs memcpy and memset alone (include/yendrolf.h).
fn lay_over(out: &mut Payload, from: &[u8])
    ensures { out.new ≡ covered out.old from.now }
{
    let n = from.len().min(MOST);
    for i in 0..n {
        out[i] = from[i];
    }
}

// Hands the first bytes of row i out.
fn hand_out(bytes: &Bytes, i: usize, size: usize, out: &mut Payload)
    requires { (i < sessions) × (size ≤ 1785) }
    ensures { out.new ≡ splice out.old 0 (take size (row_at most_bytes bytes.now i)) }
{
    let a = i * MOST;
    let e = a + size;
    lay_over(out, &bytes[a..e]);
}

// The packet of the holder of row i. Out of sequence, the row is nobody's from then on; so it is once the payload is handed out.
fn take_at(
    heads: &mut Heads,
    bytes: &mut Bytes,
    out: &mut Payload,
    i: usize,
    d: &[u8; 8],
) -> Arrived
    requires { i < sessions }
    ensures { arrived_as result (memory heads.new bytes.new) out.new
        ≡ takes_at (memory heads.old bytes.old) out.old i d.now }
{
    let a = i * ROW_WORDS;
    let n = d[0];
    if is_next(heads[a + NEXT], n) {
        lay_seven(bytes, i, n, d);
        let size = heads[a + SIZE];
        if is_last(size, n) {
            hand_out(bytes, i, size as usize, out);
            let pgn = heads[a + PGN] % 16777216;
            heads[a + HOLDER] = NOBODY; // the session ends
            return Arrived {
                answer: answers::with_detail(0, size as u32),
                pgn: pgn as u32,
            };
        }
        heads[a + NEXT] = n as u64 + 1;
        return briefly(0);
    }
    heads[a + HOLDER] = NOBODY; // the session is dropped
    briefly(29)
}

// Takes a frame that may be a packet: 1, 2, 3, 28, 29, else 0. The last packet of a session lays the payload over the start of `out`, its answer carries the size,
// and the payload's PGN is beside it; every other answer leaves `out`.
pub fn packet(
    heads: &mut Heads,
    bytes: &mut Bytes,
    out: &mut Payload,
    id: u32,
    len: u8,
    d: &[u8; 8],
) -> Arrived
    ensures { arrived_as result (memory heads.new bytes.new) out.new
        ≡ arrived (memory heads.old bytes.old) out.old id len d.now }
{
    let f = frame::split(id);
    if message::is_refused(PACKET_PF, id, len, f) {
        return briefly(refused_as(PACKET_PF, id, len, f));
    }
    let Some(i) = row_with(heads, holder_in(f)) else {
        return briefly(28);
    };
    take_at(heads, bytes, out, i, d)
}

// ---- the memory

// Makes head words of which nobody holds a row; the bytes may hold anything.
pub fn fresh(heads: &mut Heads)
    ensures { heads.new ≡ fresh_heads }
{
    words::clear(heads);
}
