// The six counters of one pair of ports, changed where they stand (02, Req 09: "arrived, filtered, queued, sent, turned away, refused"): a struct that is lent by
// `&mut`, one thin function an event, the arithmetic by value (01, "Some places and their forms"). The counters of all pairs lie in words that the caller
// lends, six for each pair (specs/Words.antt). Whatever they hold, they are counted on from there, modulo 2^64.
#![tactic(auto)]

ghost use Rattle.std.specs.Prelude.{◌≡◌};
ghost use Rattle.counters.specs.Count.{more, with_arrived, with_filtered, with_queued, with_sent, with_turned, with_refused, with_fate};
ghost use Rattle.counters.specs.Words.{counters_in, words_of, counters_at, noted_at};

// The words of a pair.
pub const PAIR_WORDS: usize = 6;

// The counters of a pair. (`repr(C)`: firmware hands them to C as they are.)
#[repr(C)]
#[derive(Clone, Copy, Default)]
pub struct Counters {
    pub arrived: u64, // all that were offered
    pub filtered: u64, // those that the pair's list stopped
    pub queued: u64, // those that wait or waited for a slot of the port
    pub sent: u64, // those of them that left it
    pub turned: u64, // those that came when 64 waited
    pub refused: u64, // those that answer 1 names
}

// What becomes of a frame at a pair: one that is offered is refused, filtered, turned away or queued, and one that was queued is sent.
#[derive(Clone, Copy, PartialEq, Eq)]
pub enum Fate {
    Refused,
    Filtered,
    Turned,
    Queued,
    Sent,
}

// One more, modulo 2^64.
// Kept: a name of its own for one call of the library, as it is public, and its promise is by the definition that the six counts are said by.
pub fn one_more(n: u64) -> u64
    ensures { result ≡ more n }
{
    n.wrapping_add(1)
}

// ---- one thin function an event, on counters where they stand
// Kept: six of one shape, a line each, since docs/PROMISES.md names each of them.

// A frame arrived.
pub fn count_arrived(c: &mut Counters)
    ensures { c.new ≡ with_arrived c.old }
{
    c.arrived = one_more(c.arrived);
}

// One was filtered.
pub fn count_filtered(c: &mut Counters)
    ensures { c.new ≡ with_filtered c.old }
{
    c.filtered = one_more(c.filtered);
}

// One was queued.
pub fn count_queued(c: &mut Counters)
    ensures { c.new ≡ with_queued c.old }
{
    c.queued = one_more(c.queued);
}

// One was sent.
pub fn count_sent(c: &mut Counters)
    ensures { c.new ≡ with_sent c.old }
{
    c.sent = one_more(c.sent);
}

// One was turned away.
pub fn count_turned(c: &mut Counters)
    ensures { c.new ≡ with_turned c.old }
{
    c.turned = one_more(c.turned);
}

// One was refused.
pub fn count_refused(c: &mut Counters)
    ensures { c.new ≡ with_refused c.old }
{
    c.refused = one_more(c.refused);
}

// What became of a frame: whichever was offered has arrived.
#[tactic(auto, unfolding(crate::specs::Count::with_fate))]
fn count(c: &mut Counters, fate: Fate)
    ensures { c.new ≡ with_fate c.old fate }
{
    if fate != Fate::Sent {
        count_arrived(c);
    }
    match fate {
        Fate::Refused => count_refused(c),
        Fate::Filtered => count_filtered(c),
        Fate::Turned => count_turned(c),
        Fate::Queued => count_queued(c),
        Fate::Sent => count_sent(c),
    }
}

// ---- words

// The counters in the words of a pair.
impl From<[u64; PAIR_WORDS]> for Counters {
    ghost from_gives = { λ row c. c ≡ counters_in row };

    fn from(row: [u64; PAIR_WORDS]) -> Counters {
        let [arrived, filtered, queued, sent, turned, refused] = row;
        Counters {
            arrived,
            filtered,
            queued,
            sent,
            turned,
            refused,
        }
    }
}

// The words of a pair's counters.
impl From<Counters> for [u64; PAIR_WORDS] {
    ghost from_gives = { λ c row. row ≡ words_of c };

    fn from(c: Counters) -> [u64; PAIR_WORDS] {
        [c.arrived, c.filtered, c.queued, c.sent, c.turned, c.refused]
    }
}

// What became of a frame, counted in the words of its pair.
fn note_row(row: &mut [u64; PAIR_WORDS], fate: Fate)
    ensures { row.new ≡ words_of (with_fate (counters_in row.old) fate) }
{
    let mut c = Counters::from(*row);
    count(&mut c, fate);
    *row = c.into();
}

// What became of a frame at the pair with this number, counted in its words, while all others stay; nothing where no pair has that number.
pub fn note(w: &mut [u64], pair: usize, fate: Fate)
    ensures { w.new ≡ noted_at w.old pair fate }
{
    if pair < w.len() / PAIR_WORDS {
        let (_, rest) = w.split_at_mut(pair * PAIR_WORDS);
        if let Some(row) = rest.first_chunk_mut() {
            note_row(row, fate);
        }
    }
}

// The counters of the pair with this number, all 0 where no pair has it.
pub fn at(w: &[u64], pair: usize) -> Counters
    ensures { result ≡ counters_at w.now pair }
{
    if pair < w.len() / PAIR_WORDS {
        let (_, rest) = w.split_at(pair * PAIR_WORDS);
        if let Some(row) = rest.first_chunk() {
            return Counters::from(*row);
        }
    }
    Counters::default()
}
