// Judging a map that stands in plain slices of SPNs, starts and widths (01, "A set and its judgement"; 02, Req 04). The slices may have any length and
// hold anything; what they stand for is `in_slices`. A rule is a test of one position, which one search asks of each in turn.
#![tactic(auto)]

ghost use Rattle.std.specs.Prelude.{◌≡◌, ◌-◌, ◌%◌, ◌≤◌, ◌<◌, Some, None, cond, ltb, length};
ghost use Rattle.answers.specs.Answers.{said_of, at};
ghost use Rattle.words.specs.First.{any, lowest as lowest_of};
ghost use Rattle.places.specs.Place.{shares_bit, end_in, end_to, bytes_for};
ghost use Rattle.judge.specs.Judge.{number_at, shortest as shortest_of, marked, unknown, repeated, not_above, uneven, overlaps, wrong_transport, judge_over, in_slices};
ghost use Rattle.judge.specs.Walk.{found, Finds, Wide, Passed, broken_by, crossing, broken};

use answers::Judgement;

// The width that says "nothing stands at this position".
// Kept: a number, and no Option: `in_slices` and `opened_by`, which the promises of `judge` and `open` cite, have this number in the list of widths.
pub const MISSING: u32 = 0xffff_ffff;

// The lowest position whose index a test picks, of the first n.
fn lowest<F: Fn(u8) -> bool>(n: u8, picks: F) -> Option<u8>
    requires { (i : _) → i < n → F.pre picks i }
    ensures { Finds (F.post picks) n result }
{
    for i in 0..n {
        if picks(i) {
            return Some(i + 1);
        }
    }
    None
}

// ---- what may be missing

// How many positions all three slices have.
// Kept: three slices and n, no `Listed`: up to where this is asked, and where a position is missing, any of them may end before n.
fn shortest(spns: &[u32], starts: &[u32], widths: &[u32]) -> usize
    ensures { result ≡ shortest_of spns.now starts.now widths.now }
{
    spns.len().min(starts.len().min(widths.len()))
}

// What stands at index i.
fn number_at(s: &[u32], i: u8) -> u32
    requires { i < length s.now }
    ensures { result ≡ number_at s.now i }
{
    s[i as usize]
}

// Whether nothing stands at index i: a slice ends before it, or the widths have the mark there.
fn is_missing(long: usize, widths: &[u32], i: u8) -> bool
    requires { long ≤ length widths.now }
    ensures { result ≡ marked long widths.now i }
{
    (long <= i as usize) || number_at(widths, i) == MISSING
}

// The lowest position that is missing.
fn lowest_missing(n: u8, spns: &[u32], starts: &[u32], widths: &[u32]) -> Option<u8>
    ensures { result ≡ found (lowest_of (marked (shortest_of spns.now starts.now widths.now) widths.now) n) }
{
    let long = shortest(spns, starts, widths);
    lowest(n, |i| is_missing(long, widths, i))
}

// ---- the rules of one position

// Whether an end is above 14,280.
fn is_beyond(end: u64) -> bool
    ensures { result ≡ ltb 14280 end }
{
    14280 < end
}

// The parameters at n positions that all three slices have.
#[derive(Clone, Copy)]
struct Listed<'a> {
    n: u8,
    spns: &'a [u32],
    starts: &'a [u32],
    widths: &'a [u32],
    ghost has_spns: { n ≤ length spns.now },
    ghost has_starts: { n ≤ length starts.now },
    ghost has_widths: { n ≤ length widths.now },
}

impl<'a> Listed<'a> {
    // Kept: each method asks that its index is below n: an index has no type of its own, and would be taken out of one at each slice.
    // Whether the SPN at index i is not in the dictionary.
    fn is_unknown(self, i: u8) -> bool
        requires { i < self.n }
        ensures { result ≡ unknown (number_at self.entry.widths.now) i }
    {
        number_at(self.widths, i) == 0
    }

    // Whether the SPN at index i stands at a lower one too.
    fn is_repeated(self, i: u8) -> bool
        requires { i < self.n }
        ensures { result ≡ repeated (number_at self.entry.spns.now) i }
    {
        let spn = number_at(self.spns, i);
        self.spns[..i as usize].contains(&spn)
    }

    // Whether the start at index i is not above the one before; the first has none before it.
    fn is_not_above(self, i: u8) -> bool
        requires { i < self.n }
        ensures { result ≡ not_above (number_at self.entry.starts.now) i }
    {
        if i == 0 {
            return false;
        }
        number_at(self.starts, i) <= number_at(self.starts, i - 1)
    }

    // Whether the parameter at index i has an odd width and starts at no multiple of 8.
    fn is_uneven(self, i: u8) -> bool
        requires { i < self.n }
        ensures { result ≡ uneven (number_at self.entry.starts.now) (number_at self.entry.widths.now) i }
    {
        places::is_odd(number_at(self.widths, i)) & (number_at(self.starts, i) % 8 != 0)
    }

    // Whether the parameter at index i shares a bit with an earlier one.
    fn shares_earlier(self, i: u8) -> bool
        requires { i < self.n }
        ensures { result ≡ overlaps (number_at self.entry.starts.now) (number_at self.entry.widths.now) i }
    {
        let start = number_at(self.starts, i);
        let width = number_at(self.widths, i);
        for j in 0..i {
            if places::shares(
                number_at(self.starts, j),
                number_at(self.widths, j),
                start,
                width,
            ) {
                return true;
            }
        }
        false
    }

    // The end of the parameter at index i.
    fn end_at(self, i: u8) -> u64
        requires { i < self.n }
        ensures { result ≡ end_in self.entry.starts.now self.entry.widths.now i }
    {
        places::end_bit(number_at(self.starts, i), number_at(self.widths, i))
    }

    // The largest end of all.
    fn largest_end(self) -> u64
        ensures { result ≡ end_to self.entry.starts.now self.entry.widths.now self.entry.n }
    {
        let mut end = 0u64;
        for i in 0..self.n {
            end = end.max(self.end_at(i));
        }
        end
    }
}

// ---- rule by rule

// Whether the transport flag is yes with a payload of 8 bytes, or no with a longer one.
fn is_wrong_transport(transport: bool, bytes: u64) -> bool
    ensures { result ≡ wrong_transport transport bytes }
{
    if transport { bytes == 8 } else { 8 < bytes }
}

// What is left to say where no rule names a position, by the largest end: 8, or usable.
fn last_word(transport: bool, end: u64) -> Judgement
    ensures { said_of result ≡ at (cond (wrong_transport transport (bytes_for end)) 8 0) 0 }
{
    if is_wrong_transport(transport, places::bytes_for(end)) {
        return Judgement::Transport;
    }
    Judgement::Usable
}

// The judgement of parameters that are all there and known, rule by rule.
fn of_known(listed: Listed, transport: bool) -> Judgement
    requires { (None ≡ found (lowest_of (marked (shortest_of listed.spns.now listed.starts.now listed.widths.now) listed.widths.now) listed.n))
        × (None ≡ found (lowest_of (unknown (number_at listed.widths.now)) listed.n)) }
    ensures { said_of result ≡ judge_over listed.entry.n transport (in_slices listed.entry.spns.now listed.entry.starts.now listed.entry.widths.now) }
{
    if let Some(repeated) = lowest(listed.n, |i| listed.is_repeated(i)) {
        return Judgement::Repeated(repeated);
    }
    if let Some(not_above) = lowest(listed.n, |i| listed.is_not_above(i)) {
        return Judgement::NotAbove(not_above);
    }
    if let Some(uneven) = lowest(listed.n, |i| listed.is_uneven(i)) {
        return Judgement::Uneven(uneven);
    }
    if let Some(overlaps) = lowest(listed.n, |i| listed.shares_earlier(i)) {
        return Judgement::Overlaps(overlaps);
    }
    if let Some(beyond) = lowest(listed.n, |i| is_beyond(listed.end_at(i))) {
        return Judgement::Beyond(beyond);
    }
    last_word(transport, listed.largest_end())
}

// The judgement of n parameters, rule by rule: the first rule of the list that applies, with its lowest position. No rule after it is tried. What is not there or
// not known comes first: the rules after these ask for its numbers.
fn by_rules(n: u8, transport: bool, spns: &[u32], starts: &[u32], widths: &[u32]) -> Judgement
    ensures { said_of result ≡ judge_over n transport (in_slices spns.now starts.now widths.now) }
{
    if let Some(missing) = lowest_missing(n, spns, starts, widths) {
        return Judgement::Missing(missing);
    }
    let listed = Listed {
        n,
        spns,
        starts,
        widths,
    };
    if let Some(unknown) = lowest(n, |i| listed.is_unknown(i)) {
        return Judgement::Unknown(unknown);
    }
    of_known(listed, transport)
}

// ---- all rules in one walk

// How many marks there are for the SPNs that were passed: one for each remainder.
const MARKS: usize = 256;

// The mark of an SPN. Two SPNs may have one mark; a mark that is not set says that its SPN was not passed.
fn mark_of(spn: u32) -> usize
    ensures { (result ≡ spn % 256) × (result < 256) }
{
    (spn % 256) as usize
}

// Whether a rule applies that looks at one parameter alone: 2, 3 or 9.
fn is_broken_alone(start: u32, width: u32) -> bool
    ensures { result ≡ broken_by start width }
{
    if width <= 8 { // most are: no odd one, and no mark
        return width == 0;
    }
    (width == MISSING) | ((width % 8 != 0) & (start % 8 != 0))
}

impl<'a> Listed<'a> {
    // Whether the SPN at index i stands at a lower one too, where each SPN that was passed has its mark: the lower ones are looked at only where the mark is set.
    fn is_again(self, seen: &[bool; MARKS], i: u8) -> bool
        requires { (i < self.n) × Passed seen.now self.spns.now i }
        ensures { result ≡ repeated (number_at self.entry.spns.now) i }
    {
        if !seen[mark_of(number_at(self.spns, i))] {
            return false;
        }
        self.is_repeated(i)
    }

    // Whether the parameter at index i does not start above the one before, or shares a bit with an earlier one, where the largest end of all earlier ones is known, and that of those before
    // the last of them. What starts at or after the first does neither; what starts below it may share no bit, in the low bits that an odd width skips. Nearly always only the last ends after this
    // start: then it alone is looked at.
    fn is_crossing(self, before: u64, end: u64, i: u8) -> bool
        requires { (i < self.n) × (before ≡ end_to self.starts.now self.widths.now (i - 1))
            × (end ≡ end_to self.starts.now self.widths.now i) × Wide self.widths.now i }
        ensures { result ≡ crossing (number_at self.entry.starts.now) (number_at self.entry.widths.now) i }
    {
        let start = number_at(self.starts, i);
        if end <= start as u64 {
            return false;
        }
        if before <= start as u64 {
            let j = i - 1;
            let width = number_at(self.widths, i);
            return self.is_not_above(i)
                | places::shares(
                    number_at(self.starts, j),
                    number_at(self.widths, j),
                    start,
                    width,
                );
        }
        self.is_not_above(i) | self.shares_earlier(i)
    }

    // Whether any rule but 7 applies to the parameter at index i, by what the walk knows of the lower ones.
    fn is_broken(self, before: u64, end: u64, seen: &[bool; MARKS], i: u8) -> bool
        requires { (i < self.n) × (before ≡ end_to self.starts.now self.widths.now (i - 1))
            × (end ≡ end_to self.starts.now self.widths.now i) × Wide self.widths.now i × Passed seen.now self.spns.now i }
        ensures { result ≡ broken self.entry.spns.now self.entry.starts.now self.entry.widths.now i }
    {
        is_broken_alone(number_at(self.starts, i), number_at(self.widths, i))
            || self.is_again(seen, i)
            || self.is_crossing(before, end, i)
    }

    // The largest end of all, where no rule but 7 applies to any: it says whether 7 does. Most maps are usable: of them this is all that is looked at.
    fn walk(self) -> Option<u64>
        ensures { result ≡ cond (any (broken self.entry.spns.now self.entry.starts.now self.entry.widths.now) self.entry.n) None
            (Some (end_to self.entry.starts.now self.entry.widths.now self.entry.n)) }
    {
        let mut seen = [false; MARKS];
        let mut before = 0; // the largest end of those before the last one passed
        let mut end = 0u64;
        for clear in 0..self.n {
            if self.is_broken(before, end, &seen, clear) {
                return None;
            }
            seen[mark_of(number_at(self.spns, clear))] = true;
            before = end;
            end = end.max(self.end_at(clear));
        }
        Some(end)
    }
}

// The judgement of n parameters: the first rule of the list that applies, with its lowest position. One walk says whether any applies; only where one does, or
// a slice is too short, they are tried in their order.
// Kept: three slices, and no array of parameters: `dictionary::widths_of` lays all widths at once, `payload` takes starts and widths alone, and the promise says by `in_slices` what they stand for.
pub fn judge(n: u8, transport: bool, spns: &[u32], starts: &[u32], widths: &[u32]) -> Judgement
    ensures { said_of result ≡ judge_over n transport (in_slices spns.now starts.now widths.now) }
{
    if shortest(spns, starts, widths) < n as usize { // one is missing
        return by_rules(n, transport, spns, starts, widths);
    }
    let listed = Listed {
        n,
        spns,
        starts,
        widths,
    };
    match listed.walk() {
        Some(end) if !is_beyond(end) => last_word(transport, end),
        _ => by_rules(n, transport, spns, starts, widths), // which rule comes first
    }
}
