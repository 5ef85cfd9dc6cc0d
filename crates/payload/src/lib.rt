// Packing and reading a configured payload (01, "Payload bits"). This room knows the starts, widths and numbers of a map as lists, and no message and no
// judgement. A payload of eight bytes, which most are, is packed and read as one number; any other one byte by byte.
#![tactic(auto)]

ghost use Rattle.std.specs.Prelude.{◌≡◌, true, ℕ, ◌≤◌, ◌<◌, Ok, IfSome, MatchOption, length, get_or};
ghost use Rattle.places.specs.Place.{size_of, unplaced_in, end_placed};
ghost use Rattle.bits.specs.Bits.{bit, bytes_with};
ghost use Rattle.payload.specs.Payload.{packed, read_all};
ghost use Rattle.payload.specs.Calls.{left, needs_more, too_wide_in, packing, reading};

// Why nothing was packed or read: the lowest position that has no place; a wrong length; the lowest position whose number needs more than its width.
#[derive(Clone, Copy)]
pub enum Unlaid {
    Unplaced(u8),
    Length,
    TooWide(u8),
}

// L of a map whose parameters all have a place, from its largest end.
fn map_size(starts: &[u32], widths: &[u32], end: u64) -> usize
    requires { (unplaced_in starts.now widths.now ≡ 0) × (end ≡ end_placed starts.now widths.now) }
    ensures { (result ≡ size_of starts.now widths.now) × (result ≤ 1785) }
{
    places::bytes_for(end) as usize
}

// Whether a number needs more than its width, where that is 32 at most. Any width may be asked, without a jump: of a wider one nothing is said.
fn needs_more(value: u32, width: u32) -> bool
    ensures { width ≤ 32 → result ≡ needs_more value width }
{
    (value as u64) >> (width % 64) != 0
}

// The lowest position whose number needs more than its width.
fn too_wide(widths: &[u32], numbers: &[u32]) -> Option<u8>
    requires { (length numbers.now ≤ length widths.now) × (length numbers.now ≤ 64) × ((i : ℕ) → i < length numbers.now → get_or widths.now i 0 ≤ 32) }
    ensures { MatchOption result (too_wide_in widths.now numbers.now ≡ 0) (λ position. (0 < position) × (position ≡ too_wide_in widths.now numbers.now)) }
{
    for (i, number) in numbers.iter().enumerate() {
        if needs_more(*number, widths[i]) {
            return Some((i + 1) as u8);
        }
    }
    None
}

// Packs a map's numbers into exactly L bytes: every bit 1, then each number laid at its places, in position order.
fn pack_into(starts: &[u32], widths: &[u32], numbers: &[u32], out: &mut [u8])
    requires { (unplaced_in starts.now widths.now ≡ 0) × (length numbers.now ≡ length starts.now)
        × (length out.old ≡ size_of starts.now widths.now) }
    ensures { out.new ≡ packed starts.now widths.now numbers.now }
{
    out.fill(255);
    for i in 0..starts.len() {
        bits::put(out, starts[i], widths[i], numbers[i]);
    }
}

// What `pack` does, of any map: it is measured, tested, and laid byte by byte.
fn pack_any(starts: &[u32], widths: &[u32], numbers: &[u32], out: &mut [u8]) -> Result<u32, Unlaid>
    ensures { left result out.new ≡ packing starts.now widths.now numbers.now out.old }
{
    let end = places::measure(starts, widths).map_err(Unlaid::Unplaced)?;
    let size = map_size(starts, widths, end);
    if (numbers.len() != starts.len()) | (out.len() < size) {
        return Err(Unlaid::Length);
    }
    if let Some(position) = too_wide(widths, numbers) {
        return Err(Unlaid::TooWide(position));
    }
    pack_into(starts, widths, numbers, &mut out[..size]);
    Ok(size as u32)
}

// Whether a map may have a payload of eight bytes: its last parameter starts there. It keeps the maps of longer payloads from being walked for nothing; of the
// others it says that their lists are long enough to be walked.
fn may_be_short(starts: &[u32], widths: &[u32]) -> bool
    ensures { result ≡ true → (length starts.now ≤ 64) × (length starts.now ≤ length widths.now) }
{
    let Some(last) = starts.last() else {
        return true;
    };
    (starts.len() <= 64) & (starts.len() <= widths.len()) & (*last < 64)
}

// Packs a map's numbers into one number: every bit 1, then each number laid at its places, in position order. Each parameter is looked at once; it is not
// done where one does not lie in eight bytes, or where its number needs more than its width.
fn pack_word(starts: &[u32], widths: &[u32], numbers: &[u32]) -> Option<u64>
    requires { (length starts.now ≤ 64) × (length starts.now ≤ length widths.now) × (length numbers.now ≡ length starts.now) }
    ensures { IfSome result (λ word. (unplaced_in starts.now widths.now ≡ 0) × (size_of starts.now widths.now ≡ 8)
        × (too_wide_in widths.now numbers.now ≡ 0)
        × (bytes_with (bit word) 8 ≡ packed starts.now widths.now numbers.now)) }
{
    let mut word = u64::MAX;
    for i in 0..starts.len() {
        let start = starts[i];
        let width = widths[i];
        let value = numbers[i];
        if (!single::lies(start, width)) | needs_more(value, width) {
            return None;
        }
        word = single::with_number(word, start, width, value);
    }
    Some(word)
}

// Kept: starts and widths as two lists, in all of this room: `open` lays a map into two arrays, and every definition takes two lists; a struct of both would be opened in each clause.

// Packs the numbers of a map into the first L bytes of `out`. Every test is made before the first byte is written; where two parameters share a bit, the
// later one has it. What lies in eight bytes is tested and laid as one number, in one walk; what is not done so, a refusal too, goes as any map does.
pub fn pack(starts: &[u32], widths: &[u32], numbers: &[u32], out: &mut [u8]) -> Result<u32, Unlaid>
    ensures { left result out.new ≡ packing starts.now widths.now numbers.now out.old }
{
    if (numbers.len() == starts.len()) & (8 <= out.len()) & may_be_short(starts, widths) {
        if let Some(word) = pack_word(starts, widths, numbers) {
            out[..8].copy_from_slice(&word.to_le_bytes());
            return Ok(8);
        }
    }
    pack_any(starts, widths, numbers, out)
}

// Reads a map's numbers into exactly n places.
fn read_into(starts: &[u32], widths: &[u32], payload: &[u8], room: &mut [u32])
    requires { (unplaced_in starts.now widths.now ≡ 0) × (length room.old ≡ length starts.now)
        × (length payload.now ≡ size_of starts.now widths.now) }
    ensures { room.new ≡ read_all starts.now widths.now payload.now }
{
    for i in 0..starts.len() {
        room[i] = bits::get(payload, starts[i], widths[i]);
    }
}

// What `read` does, of any map: it is measured, tested, and read byte by byte.
fn read_any(starts: &[u32], widths: &[u32], payload: &[u8], room: &mut [u32]) -> Result<u32, Unlaid>
    ensures { left result room.new ≡ reading starts.now widths.now payload.now room.old }
{
    let end = places::measure(starts, widths).map_err(Unlaid::Unplaced)?;
    let size = map_size(starts, widths, end);
    let n = starts.len();
    if (payload.len() != size) | (room.len() < n) {
        return Err(Unlaid::Length);
    }
    read_into(starts, widths, payload, &mut room[..n]);
    Ok(n as u32)
}

// Reads the numbers of a map of which all lie in the eight bytes of a payload, cut out of one number, and answers n. Where it is not done the room is as it was.
fn read_word(starts: &[u32], widths: &[u32], eight: &[u8; 8], room: &mut [u32]) -> Option<u32>
    ensures { MatchOption result (room.new ≡ room.old) (λ n. left (Ok n) room.new ≡ reading starts.now widths.now eight.now room.old) }
{
    if !may_be_short(starts, widths) {
        return None;
    }
    if !single::numbers_in(single::word_of(eight), starts, widths, room) {
        return None;
    }
    Some(starts.len() as u32)
}

// Reads the numbers of a map into the first n places of `room`. Every test is made before the first number is written. Where all of them lie in the eight bytes
// of a payload they are cut out of one number; what is not read so, a refusal too, goes as any map does.
pub fn read(starts: &[u32], widths: &[u32], payload: &[u8], room: &mut [u32]) -> Result<u32, Unlaid>
    ensures { left result room.new ≡ reading starts.now widths.now payload.now room.old }
{
    if let Ok(eight) = <&[u8; 8]>::try_from(payload) {
        if let Some(n) = read_word(starts, widths, eight, room) {
            return Ok(n);
        }
    }
    read_any(starts, widths, payload, room)
}
