// Where the parameters of a map stand in its payload: ends, shared bits, L, and positions that have no place (01, "Payload bits" and "A set and its
// judgement"; 02, Req 04). This room knows starts and widths, and no byte and no message. Its slices may have any length and hold anything.
#![tactic(auto)]

ghost use Rattle.std.specs.Prelude.{◌≡◌, true, false, ◌+◌, ◌*◌, ◌/◌, ◌^◌, ◌<◌, IfOk, IfErr};
ghost use Rattle.places.specs.Place.{odd, skipped, place, end_of, meet, shares_bit, bytes_for, lacks_place, unplaced_in, end_placed};

// Whether a width is above 8 and no multiple of 8: its last, partial byte is filled from the top.
#[tactic(auto, unfolding(crate::specs::Place::odd))]
pub fn is_odd(width: u32) -> bool
    ensures { result ≡ odd width }
{
    (8 < width) & (width % 8 != 0)
}

// How many low bits of its last byte a parameter skips.
#[tactic(auto, unfolding(crate::specs::Place::skipped, crate::specs::Place::odd))]
pub fn skipped_bits(width: u32) -> u32
    ensures { result ≡ skipped width }
{
    if 8 < width { (8 - width % 8) % 8 } else { 0 }
}

// The payload bit after the last one of a parameter.
// Kept: start and width by themselves, here and in the rooms above, and no struct of the two: they stand in two lists, as `open` lays them, and every definition takes them so; a pair would be made only to be taken apart.
pub fn end_bit(start: u32, width: u32) -> u64
    ensures { result ≡ end_of start width }
{
    start as u64 + skipped_bits(width) as u64 + width as u64
}

// The place of the first bit that fills no whole byte: from there on stand the bits left over.
pub fn left_bit(start: u32, width: u32) -> u64
    ensures { result ≡ place start width (width / 8 * 8) }
{
    start as u64 + skipped_bits(width) as u64 + (width / 8 * 8) as u64
}

// Whether two runs of n1 and n2 payload bits have a bit in common.
fn runs_share(start1: u64, n1: u64, start2: u64, n2: u64) -> bool
    requires { (start1 + n1 < 2 ^ 64) × (start2 + n2 < 2 ^ 64) }
    ensures { result ≡ meet (λ i. start1 + i) n1 (λ i. start2 + i) n2 }
{
    (0 < n1) & (0 < n2) & (start1 < start2 + n2) & (start2 < start1 + n1)
}

// Whether a run of n payload bits and a parameter have a bit in common: the parameter is the run of its whole bytes and that of the bits left over.
fn run_shares(from: u64, n: u64, start: u32, width: u32) -> bool
    requires { from + n < 2 ^ 64 }
    ensures { result ≡ meet (λ i. from + i) n (place start width) width }
{
    let whole = (width / 8 * 8) as u64;
    runs_share(from, n, start as u64, whole)
        | runs_share(from, n, left_bit(start, width), width as u64 - whole)
}

// Whether the second of two parameters lies in the low bits that the first skips. The promise says only what follows of that.
fn lies_skipped(s1: u32, w1: u32, s2: u32, w2: u32) -> bool
    ensures { result ≡ true → shares_bit s1 w1 s2 w2 ≡ false }
{
    (s1 as u64 + (w1 / 8 * 8) as u64 <= s2 as u64) & (end_bit(s2, w2) <= left_bit(s1, w1))
}

// Whether two parameters share a payload bit. Where the second starts at or after the end of the first, as most do that are asked about, or stands in the low bits that the first skips, nothing else
// is looked at.
pub fn shares(s1: u32, w1: u32, s2: u32, w2: u32) -> bool
    ensures { result ≡ shares_bit s1 w1 s2 w2 }
{
    if end_bit(s1, w1) <= s2 as u64 {
        return false;
    }
    if lies_skipped(s1, w1, s2, w2) {
        return false;
    }
    let whole = (w1 / 8 * 8) as u64;
    run_shares(s1 as u64, whole, s2, w2) | run_shares(left_bit(s1, w1), w1 as u64 - whole, s2, w2)
}

// L, from the largest end of a map's parameters.
#[tactic(auto, unfolding(crate::specs::Place::bytes_for))]
pub fn bytes_for(end: u64) -> u64
    ensures { result ≡ bytes_for end }
{
    end.div_ceil(8).max(8)
}

// Whether the parameter at index i has no place.
#[tactic(auto, unfolding(crate::specs::Place::lacks_place))]
fn lacks_place(i: usize, start: u32, width: u32) -> bool
    ensures { result ≡ lacks_place i start width }
{
    (64 <= i) | (width < 1) | (32 < width) | (14280 < end_bit(start, width))
}

// Measures a map in one walk, in which each parameter is looked at once, for its place and for its end: the largest end, or the lowest position that has no place.
pub fn measure(starts: &[u32], widths: &[u32]) -> Result<u64, u8>
    ensures ok { IfOk result (λ end. (unplaced_in starts.now widths.now ≡ 0) × (end ≡ end_placed starts.now widths.now)) }
    ensures err { IfErr result (λ position. (0 < position) × (position ≡ unplaced_in starts.now widths.now) × (end_placed starts.now widths.now ≡ 0)) }
{
    let mut end = 0;
    for (i, start) in starts.iter().enumerate() {
        let Some(width) = widths.get(i) else {
            return Err((i + 1) as u8); // a missing width is 0, which has no place
        };
        if lacks_place(i, *start, *width) {
            return Err((i + 1) as u8);
        }
        end = end_bit(*start, *width).max(end);
    }
    Ok(end)
}
