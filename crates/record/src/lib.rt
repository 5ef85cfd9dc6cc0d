// The 13 bytes of a record of a log (01, "The listing program"): identifier least significant byte first, length, 8 data bytes. And what a log that comes
// in chunks needs: the bytes of a cut record, carried from one chunk to the next.
#![tactic(auto)]

ghost use Rattle.std.specs.Prelude.{◌≡◌, ◌++◌, ◌-◌, ◌≤◌, length};
ghost use Rattle.answers.specs.Answers.{outcome, in_numbers};
ghost use Rattle.record.specs.Record.{record_in, bytes_of, written};
ghost use Rattle.splice.specs.Splice.{covered};
ghost use Rattle.record.specs.Sized.{held_by, carried_by, padded_by, begun_by};
ghost use Rattle.record.specs.Chunk.{left_in};

use answers::Answer;

// The bytes of a record.
pub const SIZE: usize = 13;

// A frame as a log has it.
#[derive(Clone, Copy)]
pub struct Record {
    pub id: u32,
    pub len: u8,
    pub bytes: [u8; 8],
}

// The record in the first 13 bytes, or one of zeros where there are fewer.
pub fn read(s: &[u8]) -> Record
    ensures { result ≡ record_in s.now }
{
    if let [i, j, k, l, len, a, b, c, d, e, f, g, h, ..] = s {
        return Record {
            id: u32::from_le_bytes([*i, *j, *k, *l]),
            len: *len,
            bytes: [*a, *b, *c, *d, *e, *f, *g, *h],
        };
    }
    Record {
        id: 0,
        len: 0,
        bytes: [0; 8],
    }
}

// The 13 bytes of a frame.
fn bytes_of(id: u32, len: u8, d: &[u8; 8]) -> [u8; SIZE]
    ensures { result ≡ bytes_of id len d.now }
{
    let [i, j, k, l] = id.to_le_bytes();
    let [a, b, c, d, e, f, g, h] = *d;
    [i, j, k, l, len, a, b, c, d, e, f, g, h]
}

// Lays a record over the first 13 bytes: 0, or 13 and nothing written where there are fewer.
pub fn write(s: &mut [u8], id: u32, len: u8, d: &[u8; 8]) -> Answer
    ensures { outcome (in_numbers result) s.new ≡ written s.old id len d.now }
{
    let b = bytes_of(id, len, d);
    if splice::copy_at(s, 0, &b) {
        return answers::plainly(0);
    }
    answers::plainly(13)
}

// ---- chunks

// How many bytes of a record of any size are carried: as many as it has or more, as no cut record leaves, counts as 0.
pub fn held(size: usize, left: usize) -> usize
    ensures { (result ≡ held_by size left) × (result ≤ size - 1) }
{
    if left < size { left } else { 0 }
}

// The same of records of 13 bytes.
// Kept: `held` at one size, as docs/PROMISES.md names it.
pub fn left_in(left: usize) -> usize
    ensures { (result ≡ left_in left) × (result ≤ 12) }
{
    held(SIZE, left)
}

// As many bytes as a record has: the carried ones and those behind them, as many as fit, and 0 in the rest.
pub fn joined<const Z: usize>(carry: &[u8], more: &[u8]) -> [u8; Z]
    ensures { result ≡ padded_by Z (carry.now ++ more.now) }
{
    let mut b = [0u8; Z];
    splice::join_in(&mut b, carry, more);
    b
}

// How far a record is begun: so many of its bytes are there, and the last `taken` of them are the first of a chunk.
#[derive(Clone, Copy)]
pub struct Begun {
    pub left: usize,
    pub taken: usize,
}

// Lays the carried bytes, the first `left` of a record that may have any size, and a chunk behind them over the start of `out`, as far as it reaches. The record is whole where as many
// bytes are there as it has.
pub fn begin(out: &mut [u8], carry: &[u8], left: usize, chunk: &[u8]) -> Begun
    ensures out_after { out.new ≡ covered out.old (carried_by (length carry.now) left carry.now ++ chunk.now) }
    ensures value { result ≡ begun_by (length carry.now) left (length chunk.now) }
{
    let n = held(carry.len(), left);
    splice::join_in(out, &carry[..n], chunk);
    let taken = (carry.len() - n).min(chunk.len());
    Begun {
        left: n + taken,
        taken,
    }
}
