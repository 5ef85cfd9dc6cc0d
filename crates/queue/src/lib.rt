// The queue of a port (02, Req 09: "Frames of higher priority leave first, equal ones in order of arrival (004, 4.4)", "each holds 64"), in words that the caller lends: 65 for each port, the
// count and then the waiting frames in the order in which they came, a word for each (specs/Row.antt). Whatever the words hold, each call has its defined answer: a count above 64
// is read as 64, and no index goes by any other word.
#![tactic(auto)]

ghost use Rattle.std.specs.Prelude.{◌≡◌, ◌≤◌, ◌<◌, length, MatchOption};
ghost use Rattle.queue.specs.Queue.{place};
ghost use Rattle.queue.specs.Row.{word_of, from_in, id_in, priority_in, count_in, waiting_in, how_many, closed_up, entered, row_enters, enters_at, left_with, row_leaves, leaves_at, waiting_at};

// How many frames wait at a port at most.
pub const ROOM: usize = 64;

// The words of a port: its count, and a word for each frame.
pub const WIDTH: usize = 65;

// Above every priority number.
const NONE_YET: usize = 8;

// The words of one port.
type Row = [u64; WIDTH];

// ---- a frame as a word

// The port that a frame came from, and its identifier, as one word.
// Kept: a word made of two numbers, here and back, since C lends the words.
pub fn word_of(from: u8, id: u32) -> u64
    ensures { result ≡ word_of from id }
{
    from as u64 * 4294967296 + id as u64
}

// The port that a frame came from.
pub fn from_in(word: u64) -> u8
    ensures { result ≡ from_in word }
{
    (word / 4294967296 % 256) as u8
}

// Its identifier.
pub fn id_in(word: u64) -> u32
    ensures { result ≡ id_in word }
{
    (word % 4294967296) as u32
}

// Its priority number: a lower one is a higher priority.
fn priority_in(word: u64) -> usize
    ensures { (result ≡ priority_in word) × (result < 8) }
{
    (word / 67108864 % 8) as usize
}

// ---- frames that wait, the earliest first

// The place of the one that leaves next, where there is one: the earliest of the highest priority.
fn place_of(frames: &[u64]) -> Option<usize>
    ensures { MatchOption result (length frames.now ≡ 0) (λ k. (k < length frames.now) × (k ≡ place priority_in frames.now)) }
{
    if frames.is_empty() {
        return None;
    }
    let mut best = 0;
    let mut low = NONE_YET;
    for (k, word) in frames.iter().enumerate() {
        let p = priority_in(*word);
        if p < low {
            best = k;
            low = p;
        }
    }
    Some(best)
}

// How many of them came from a port.
// Kept: a loop, of which the compiler takes several words at a time. `filter(..).count()` over 64 frames takes more than twice as long.
fn count_from(frames: &[u64], from: u8) -> usize
    ensures { result ≡ how_many from frames.now }
{
    let mut count = 0;
    for word in frames {
        if from_in(*word) == from {
            count += 1;
        }
    }
    count
}

// ---- the words of a port

// How many frames wait, at most 64 whatever the words are.
fn count_of(row: &Row) -> usize
    ensures { (result ≡ count_in row.now) × (result ≤ 64) }
{
    ROOM.min(row[0] as usize)
}

// The frames that wait, the earliest first.
fn waiting(row: &Row) -> &[u64]
    ensures { (result.now ≡ waiting_in row.now) × (length result.now ≤ 64) }
{
    &row[1..1 + count_of(row)]
}

// A frame enters behind the last, where fewer than 64 wait.
fn enter_row(row: &mut Row, word: u64) -> bool
    ensures { entered result row.new ≡ row_enters row.old word }
{
    let n = count_of(row);
    if n < ROOM {
        row[1 + n] = word;
        row[0] = n as u64 + 1;
        return true;
    }
    false
}

// The frame at place k leaves: those behind it move up by one place.
fn close_up(row: &mut Row, k: usize)
    requires { k < count_in row.old }
    ensures { row.new ≡ closed_up row.old k }
{
    let n = count_of(row);
    row.copy_within(k + 2..n + 1, k + 1);
    row[0] = n as u64 - 1;
}

// The frame that is next leaves, where one waits.
fn leave_row(row: &mut Row) -> Option<u64>
    ensures { left_with result row.new ≡ row_leaves row.old }
{
    let k = place_of(waiting(row))?;
    let word = row[1 + k];
    close_up(row, k);
    Some(word)
}

// ---- the ports, by the numbers of their rows

// A frame enters the queue with this number, whose words are lent while all others stay: whether it did. It does not where 64 wait, or no queue has that number.
pub fn enter(q: &mut [u64], port: usize, word: u64) -> bool
    ensures { entered result q.new ≡ enters_at q.old port word }
{
    if port < q.len() / WIDTH {
        let (_, rest) = q.split_at_mut(port * WIDTH);
        if let Some(row) = rest.first_chunk_mut() {
            return enter_row(row, word);
        }
    }
    false
}

// The frame that is next leaves the queue with this number; none does where none waits, or no queue has that number.
pub fn leave(q: &mut [u64], port: usize) -> Option<u64>
    ensures { left_with result q.new ≡ leaves_at q.old port }
{
    if port < q.len() / WIDTH {
        let (_, rest) = q.split_at_mut(port * WIDTH);
        if let Some(row) = rest.first_chunk_mut() {
            return leave_row(row);
        }
    }
    None
}

// How many of those that wait in the queue with this number came from a port; 0 where no queue has it.
pub fn waiting_from(q: &[u64], port: usize, from: u8) -> usize
    ensures { result ≡ how_many from (waiting_at q.now port) }
{
    if port < q.len() / WIDTH {
        let (_, rest) = q.split_at(port * WIDTH);
        if let Some(row) = rest.first_chunk() {
            return count_from(waiting(row), from);
        }
    }
    0
}
