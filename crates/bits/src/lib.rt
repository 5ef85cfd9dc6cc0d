// The bits of payload bytes (01, "Payload bits"): a parameter's number laid at its places, and read from them. This room knows bytes, and one start, width
// and number at a time.
#![tactic(auto)]

ghost use Rattle.std.specs.Prelude.{◌≡◌, cond, true, false, ◌&&◌, ℕ, ◌+◌, ◌-◌, ◌*◌, ◌/◌, ◌%◌, ◌^◌, ◌≤◌, ◌<◌, eqb, leb, length};
ghost use Rattle.places.specs.Place.{odd, place, end_of};
ghost use Rattle.bits.specs.Bits.{bit, bit_at, bit_after, lies_in, with_number, read_number, number_in, run_at, masked};

// Whether a parameter's number has 32 bits at most, and all its places lie in n bytes.
fn lies_in(n: usize, start: u32, width: u32) -> bool
    ensures { result ≡ lies_in n start width }
{
    (width <= 32) & ((places::end_bit(start, width) + 7) / 8 <= n as u64)
}

// The number with the bits that the mask has taken from `bits`.
pub fn merge(word: u64, mask: u64, bits: u64) -> u64
    ensures { (j : ℕ) → j < 64 → bit result j ≡ cond (eqb (bit mask j) 1) (bit bits j) (bit word j) }
{
    (word & !mask) | (bits & mask)
}

// In the n bytes from byte k on, the bits that the mask has are taken from `bits`, the lowest byte first.
fn put_bytes(out: &mut [u8], k: usize, n: usize, mask: u64, bits: u64)
    requires { k + n ≤ length out.old }
    ensures { (p : ℕ) → bit_at out.new p ≡ masked k n mask bits p (bit_at out.old p) }
{
    let mut m = mask;
    let mut b = bits;
    for i in 0..n {
        let at = k + i;
        out[at] = (merge(out[at] as u64, m, b) % 256) as u8;
        m /= 256;
        b /= 256;
    }
}

// A number of n ones, where n is below 64 (law ones-few); no n traps.
pub fn ones(n: u32) -> u64
    ensures { result ≡ 2 ^ (n % 64) - 1 }
{
    (1 << (n % 64)) - 1
}

// How many bytes a run of n payload bits touches: at most five.
fn touched(start: u64, n: u32) -> usize
    requires { n ≤ 32 }
    ensures { result ≡ (start % 8 + n + 7) / 8 }
{
    ((start % 8 + n as u64 + 7) / 8) as usize
}

// Whether a run of `width` payload bits has 32 bits at most and lies in n bytes.
// Kept: beside lies_in. Of a width that is not odd only the bytes that its run touches are counted, which takes fewer steps (docs/BENCH.md).
fn run_lies_in(n: usize, start: u64, width: u32) -> bool
    ensures { result ≡ (leb width 32 && leb (start + width) (8 * n)) }
{
    if 32 < width {
        return false;
    }
    (start / 8) as usize + touched(start, width) <= n
}

// Lays the low `width` bits of value at payload bit `start` on.
fn put_run(out: &mut [u8], start: u64, width: u32, value: u32)
    requires { (width ≤ 32) × (start + width ≤ 8 * length out.old) }
    ensures { (p : ℕ) → bit_at out.new p ≡ bit_after (λ i. start + i) (bit value) width p (bit_at out.old p) }
{
    let off = (start % 8) as u32;
    let mask = ones(width) << off;
    let bits = (value as u64) << off;
    put_bytes(out, (start / 8) as usize, touched(start, width), mask, bits);
}

// Lays a number of an odd width: the run of its whole bytes, and that of the bits left over, above those it skips.
fn lay_odd(out: &mut [u8], start: u32, width: u32, value: u32)
    requires { (odd width ≡ true) × (width ≤ 32) × (end_of start width ≤ 8 * length out.old) }
    ensures { (p : ℕ) → bit_at out.new p ≡ bit_after (place start width) (bit value) width p (bit_at out.old p) }
{
    let whole = width / 8 * 8;
    let left = places::left_bit(start, width);
    put_run(out, start as u64, whole, value);
    put_run(out, left, width - whole, value >> whole);
}

// Lays a number of an odd width, where it lies in the bytes.
fn put_odd(out: &mut [u8], start: u32, width: u32, value: u32)
    requires { odd width ≡ true }
    ensures { out.new ≡ with_number out.old start width value }
{
    if lies_in(out.len(), start, width) {
        lay_odd(out, start, width, value);
    }
}

// Lays a number of any other width, which is one run, where it lies in the bytes.
fn put_even(out: &mut [u8], start: u32, width: u32, value: u32)
    requires { odd width ≡ false }
    ensures { out.new ≡ with_number out.old start width value }
{
    if run_lies_in(out.len(), start as u64, width) {
        put_run(out, start as u64, width, value);
    }
}

// Lays a parameter's number at its places; where it does not lie in the bytes, nothing is laid.
pub fn put(out: &mut [u8], start: u32, width: u32, value: u32)
    ensures { out.new ≡ with_number out.old start width value }
{
    if places::is_odd(width) {
        put_odd(out, start, width, value);
        return;
    }
    put_even(out, start, width, value);
}

// The number of the n bytes from byte k on, of which the first is the lowest.
fn get_bytes(payload: &[u8], k: usize, n: usize) -> u64
    requires { (n ≤ 8) × (k + n ≤ length payload.now) }
    ensures { result ≡ run_at payload.now (8 * k) (8 * n) }
{
    let mut sum = 0;
    for i in (0..n).rev() {
        sum = sum * 256 + payload[k + i] as u64;
    }
    sum
}

// The number whose bits are the `width` payload bits from `start` on.
fn get_run(payload: &[u8], start: u64, width: u32) -> u32
    requires { (width ≤ 32) × (start + width ≤ 8 * length payload.now) }
    ensures { result ≡ run_at payload.now start width }
{
    let sum = get_bytes(payload, (start / 8) as usize, touched(start, width));
    ((sum >> (start % 8) as u32) & ones(width)) as u32
}

// A number of an odd width: the run of its whole bytes, and above it that of the bits left over.
fn fetch_odd(payload: &[u8], start: u32, width: u32) -> u32
    requires { (odd width ≡ true) × (width ≤ 32) × (end_of start width ≤ 8 * length payload.now) }
    ensures { result ≡ read_number payload.now start width }
{
    let whole = width / 8 * 8;
    let left = places::left_bit(start, width);
    let low = get_run(payload, start as u64, whole);
    let high = get_run(payload, left, width - whole);
    low + (high << whole)
}

// A number of an odd width, from its places; 0 where it does not lie in the payload.
fn get_odd(payload: &[u8], start: u32, width: u32) -> u32
    requires { odd width ≡ true }
    ensures { result ≡ number_in payload.now start width }
{
    if lies_in(payload.len(), start, width) {
        return fetch_odd(payload, start, width);
    }
    0
}

// A number of any other width, which is one run.
fn get_even(payload: &[u8], start: u32, width: u32) -> u32
    requires { odd width ≡ false }
    ensures { result ≡ number_in payload.now start width }
{
    if run_lies_in(payload.len(), start as u64, width) {
        return get_run(payload, start as u64, width);
    }
    0
}

// A parameter's number, from its places; 0 where it does not lie in the payload.
// Kept: 0 and no None: number_in, of which this promises to be, has a number on every input, and `payload` asks only for numbers that lie there.
pub fn get(payload: &[u8], start: u32, width: u32) -> u32
    ensures { result ≡ number_in payload.now start width }
{
    if places::is_odd(width) {
        return get_odd(payload, start, width);
    }
    get_even(payload, start, width)
}
