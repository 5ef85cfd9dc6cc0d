// A payload of one frame: its eight bytes as one number, out of which a parameter's number is cut by a shift and a mask, and into which it is laid by them.
// What comes out is what `bits` reads from the bytes, and what is laid is what `bits` lays into them.
#![tactic(auto)]

ghost use Rattle.std.specs.Prelude.{◌≡◌, true, false, cond, ℕ, ◌+◌, ◌-◌, ◌^◌, ◌≤◌, ◌<◌, eqb, length};
ghost use Rattle.places.specs.Place.{odd, place, end_of};
ghost use Rattle.bits.specs.Bits.{bit, run_at};
ghost use Rattle.single.specs.Single.{run_in, number_of, lies_there, cut_from, all_lie, numbers_of, taking, taken, laid_at, laid_on};

// The bytes of a frame.
const BYTES: usize = 8;

// The eight bytes as one number, the first the lowest; that they are eight, as their type says, is handed on with it.
pub fn word_of(bytes: &[u8; BYTES]) -> u64
    ensures { (result ≡ run_at bytes.now 0 64) × (length bytes.now ≡ 8) }
{
    u64::from_le_bytes(*bytes)
}

// The n bits of a number from `from` on, as a number.
fn run_in(word: u64, from: u32, n: u32) -> u32
    requires { (from < 64) × (n ≤ 32) }
    ensures { result ≡ run_in word from n }
{
    ((word >> from) & bits::ones(n)) as u32
}

// A number of an odd width: the run of its whole bytes, and above it that of the bits left over.
// Kept: beside bits::fetch_odd, which takes the same two runs out of bytes. One function of both, and one of with_odd and bits::lay_odd, would take the run as a closure with what that requires, for four lines.
fn cut_odd(word: u64, start: u32, width: u32) -> u32
    requires { (odd width ≡ true) × (width ≤ 32) × (end_of start width ≤ 64) }
    ensures { result ≡ number_of word start width }
{
    let whole = width / 8 * 8;
    let left = places::left_bit(start, width);
    let low = run_in(word, start, whole);
    let high = run_in(word, left as u32, width - whole);
    low + (high << whole)
}

// Whether a parameter has a bit, 32 at most, and all of them in eight bytes. Most are narrow: they skip no bit, and are asked for none.
pub fn lies(start: u32, width: u32) -> bool
    ensures { result ≡ lies_there start width }
{
    if width <= 8 {
        return (1 <= width) & (start as u64 + width as u64 <= 64);
    }
    (width <= 32) & (places::end_bit(start, width) <= 64)
}

// The same, without a jump and in 32 bits: for a loop over a map, which is then made of a few steps for four parameters at once, and where nobody can foresee which are narrow.
// Kept: two bodies of one promise, each the faster one where it is asked (docs/BENCH.md has both, measured).
fn lies_too(start: u32, width: u32) -> bool
    ensures { result ≡ lies_there start width }
{
    let end = start % 64 + places::skipped_bits(width) + width % 64;
    (1 <= width) & (width <= 32) & (start < 64) & (end <= 64)
}

// The number of a parameter that lies in the eight bytes.
fn cut(word: u64, start: u32, width: u32) -> u32
    requires { lies_there start width ≡ true }
    ensures { result ≡ number_of word start width }
{
    if width <= 8 { // most are
        return run_in(word, start, width);
    }
    if places::is_odd(width) {
        return cut_odd(word, start, width);
    }
    run_in(word, start, width)
}

// The number of a parameter, out of the eight bytes as one number; 0 where it does not lie in them.
// Kept: 0 and no None: cut_from, of which this promises to be, has a number on every input, and a hire counts that number.
pub fn number_in(word: u64, start: u32, width: u32) -> u32
    ensures { result ≡ cut_from word start width }
{
    if !lies_too(start, width) {
        return 0;
    }
    cut(word, start, width)
}

// ---- the numbers of a map

// Whether every parameter of a map lies in eight bytes.
fn all_lie(starts: &[u32], widths: &[u32]) -> bool
    requires { length starts.now ≤ length widths.now }
    ensures { result ≡ all_lie starts.now widths.now }
{
    let mut outside = false;
    for i in 0..starts.len() {
        outside |= !lies_too(starts[i], widths[i]);
    }
    !outside
}

// Cuts the numbers of a map that lies in the eight bytes, into exactly as many places.
fn cut_all(word: u64, starts: &[u32], widths: &[u32], room: &mut [u32])
    requires { (length starts.now ≤ length widths.now) × (length room.old ≡ length starts.now) × (all_lie starts.now widths.now ≡ true) }
    ensures { room.new ≡ numbers_of word starts.now widths.now }
{
    for i in 0..starts.len() {
        room[i] = cut(word, starts[i], widths[i]);
    }
}

// The numbers of a map, out of the eight bytes as one number, over the start of `room`: all of them, or none and the room as it was, where one does not lie in the eight bytes or
// there are fewer widths or places than starts.
// Kept: a bool and no Option: there is no value to hand over, and where it is false the room is as it was.
pub fn numbers_in(word: u64, starts: &[u32], widths: &[u32], room: &mut [u32]) -> bool
    ensures { (result ≡ taking starts.now widths.now (length room.old))
        × (room.new ≡ taken word starts.now widths.now room.old) }
{
    let n = starts.len();
    if (widths.len() < n) | (room.len() < n) {
        return false;
    }
    if !all_lie(starts, widths) {
        return false;
    }
    cut_all(word, starts, widths, &mut room[..n]);
    true
}

// ---- and back

// The number with the low n bits of value laid at its bits from `from` on.
fn with_run(word: u64, from: u32, n: u32, value: u32) -> u64
    requires { (from < 64) × (n ≤ 32) × (from + n ≤ 64) }
    ensures { result ≡ laid_at (λ i. from + i) n word value }
{
    let mask = bits::ones(n) << from;
    let bits = (value as u64) << from;
    bits::merge(word, mask, bits)
}

// The number with one of an odd width laid on it: the run of its whole bytes, and that of the bits left over, above those it skips.
fn with_odd(word: u64, start: u32, width: u32, value: u32) -> u64
    requires { (odd width ≡ true) × (width ≤ 32) × (end_of start width ≤ 64) }
    ensures { result ≡ laid_at (place start width) width word value }
{
    let whole = width / 8 * 8;
    let left = places::left_bit(start, width);
    let low = with_run(word, start, whole, value);
    with_run(low, left as u32, width - whole, value >> whole)
}

// The eight bytes as one number with a parameter's number laid at its places; as they were, where it does not lie in them.
pub fn with_number(word: u64, start: u32, width: u32, value: u32) -> u64
    ensures { result ≡ laid_on word start width value }
{
    if !lies(start, width) {
        return word;
    }
    if places::is_odd(width) {
        return with_odd(word, start, width, value);
    }
    with_run(word, start, width, value)
}
