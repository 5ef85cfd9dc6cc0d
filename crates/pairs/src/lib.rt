// The filter of a port pair, by the pair's number, in memory that the caller lends (01, "Port pairs"): specs/Pairs.antt says what a pair is
// and does, specs/Row.antt where its words stand. Words that no command wrote are answered too: nothing here can trap.
#![tactic(auto)]

ghost use Rattle.std.specs.Prelude.{◌≡◌, ◌≢◌, ℕ, ◌≤◌, ◌<◌, ◌+◌, ◌||◌, eqb, get_or, length};
ghost use Rattle.pairs.specs.Pairs.{ill_formed, number_of, passes};
ghost use Rattle.pairs.specs.Row.{mode_in, count_in, listed_in, IsPlace, noted, row_obeys, obeys_at, passes_at};

// How many pairs there are.
pub const PAIRS: usize = 12;

// How many words a pair has: its mode, its count and its list.
pub const WIDTH: usize = 34;

// How many words the caller lends.
pub const WORDS: usize = 408;

// How many PGNs a list holds.
pub const ROOM: usize = 32;

// The words of a pair.
type Row = [u32; WIDTH];

// What changes a pair.
#[derive(Clone, Copy)]
pub enum Command {
    Add(u32),
    Delete(u32),
    Renew(u8),
}

// Why a command is refused.
#[derive(Clone, Copy, PartialEq, Eq)]
pub enum Refusal {
    NoPair,
    Full,
    IllFormed,
    NotListed,
    NoMode,
}

// The number that 01 has for the answer to a command: 0, or that of its refusal.
// Kept: one function of both, as an answer is a number in the end.
pub fn number_of(done: Result<(), Refusal>) -> u8
    ensures { result ≡ number_of done }
{
    match done {
        Ok(()) => 0,
        Err(Refusal::NoPair) => 15,
        Err(Refusal::Full) => 16,
        Err(Refusal::IllFormed) => 17,
        Err(Refusal::NotListed) => 18,
        Err(Refusal::NoMode) => 19,
    }
}

// Whether a PGN is above 262,143, or has a PF below 240 with a low byte other than 0.
fn ill_formed(pgn: u32) -> bool
    ensures { result ≡ ill_formed pgn }
{
    (262143 < pgn) | ((pgn / 256 % 256 < 240) & (pgn % 256 != 0))
}

// Whether a frame passes: mode 0 passes all but the listed, mode 1 blocks all but the listed.
pub fn passing(mode: u8, listed: bool) -> bool
    ensures { result ≡ passes mode listed }
{
    if mode == 0 { !listed } else { listed }
}

// A row's mode.
// Kept: a number, as it stands in the words that C lends and as a command brings it, where any but 0 and 1 is refused.
fn mode_of(row: &Row) -> u8
    ensures { result ≡ mode_in row.now }
{
    frame::pick8(row[0] == 0, 0, 1)
}

// How many PGNs a row lists, at most 32 whatever its words are.
fn count_of(row: &Row) -> usize
    ensures { (result ≡ count_in row.now) × (result ≤ 32) }
{
    ROOM.min(row[1] as usize)
}

// Whether one of the four words from `at` on is the PGN. All four are asked, so that the compiler takes them at once.
fn is_in_four(row: &Row, at: usize, pgn: u32) -> bool
    requires { at + 4 ≤ 34 }
    ensures { result ≡ (eqb (get_or row.now at 0) pgn || eqb (get_or row.now (at + 1) 0) pgn || eqb (get_or row.now (at + 2) 0) pgn || eqb (get_or row.now (at + 3) 0) pgn) }
{
    (row[at] == pgn) | (row[at + 1] == pgn) | (row[at + 2] == pgn) | (row[at + 3] == pgn)
}

// How many of the first n entries a search for the place may pass: those before the first four among which the PGN is, or all whole fours where it is in none.
fn passed(row: &Row, n: usize, pgn: u32) -> usize
    requires { n ≤ 32 }
    ensures { (result ≤ n) × ((j : ℕ) → j < result → get_or row.now (2 + j) 0 ≢ pgn) }
{
    for i in 0..n / 4 {
        if is_in_four(row, 2 + 4 * i, pgn) {
            return 4 * i;
        }
    }
    n / 4 * 4
}

// The lowest place at which a row lists the PGN.
fn entry_of(row: &Row, pgn: u32) -> Option<usize>
    ensures { IsPlace row.now pgn result }
{
    let n = count_of(row);
    for k in passed(row, n, pgn)..n {
        if row[2 + k] == pgn {
            return Some(k);
        }
    }
    None
}

// Whether a row lists the PGN.
// Kept: beside `entry_of`, which then looks for the place among the four: a frame asks this, and the place is not needed (docs/BENCH.md, "Since the look back").
fn lists(row: &Row, pgn: u32) -> bool
    ensures { result ≡ listed_in row.now pgn }
{
    let n = count_of(row);
    if n == 0 { // no loop is begun for an empty list
        return false;
    }
    for i in 0..n / 4 {
        if is_in_four(row, 2 + 4 * i, pgn) {
            return true;
        }
    }
    for k in n / 4 * 4..n {
        if row[2 + k] == pgn {
            return true;
        }
    }
    false
}

// Adds a PGN behind the last, where it is not listed yet and there is room.
fn add_row(row: &mut Row, pgn: u32) -> Result<(), Refusal>
    ensures { noted (number_of result) row.new ≡ row_obeys row.old (Command.Add pgn) }
{
    if ill_formed(pgn) {
        return Err(Refusal::IllFormed);
    }
    if entry_of(row, pgn).is_some() {
        return Ok(());
    }
    let n = count_of(row);
    if n < ROOM {
        row[2 + n] = pgn;
        row[1] = n as u32 + 1;
        return Ok(());
    }
    Err(Refusal::Full)
}

// Deletes a PGN: the last one takes its place.
fn delete_row(row: &mut Row, pgn: u32) -> Result<(), Refusal>
    ensures { noted (number_of result) row.new ≡ row_obeys row.old (Command.Delete pgn) }
{
    if ill_formed(pgn) {
        return Err(Refusal::IllFormed);
    }
    let n = count_of(row);
    let Some(k) = entry_of(row, pgn) else {
        return Err(Refusal::NotListed);
    };
    row[2 + k] = row[1 + n];
    row[1] = n as u32 - 1;
    Ok(())
}

// Sets the mode and empties the list.
fn renew_row(row: &mut Row, mode: u8) -> Result<(), Refusal>
    ensures { noted (number_of result) row.new ≡ row_obeys row.old (Command.Renew mode) }
{
    if 1 < mode {
        return Err(Refusal::NoMode);
    }
    row[0] = mode as u32;
    row[1] = 0;
    Ok(())
}

// Obeys a command in the row of its pair.
fn obey_row(row: &mut Row, c: Command) -> Result<(), Refusal>
    ensures { noted (number_of result) row.new ≡ row_obeys row.old c }
{
    match c {
        Command::Add(pgn) => add_row(row, pgn),
        Command::Delete(pgn) => delete_row(row, pgn),
        Command::Renew(mode) => renew_row(row, mode),
    }
}

// The same in words that are a row; no others are.
fn obey_in(words: &mut [u32], c: Command) -> Result<(), Refusal>
    ensures { length words.old ≡ 34 → noted (number_of result) words.new ≡ row_obeys words.old c }
{
    match words.first_chunk_mut() {
        Some(row) => obey_row(row, c),
        None => Err(Refusal::NoPair),
    }
}

// A command to the pair with this number, whose row is lent while all others stay; where no row has that number, there is no pair.
#[inline(always)]
pub fn obey(w: &mut [u32], pair: usize, c: Command) -> Result<(), Refusal>
    ensures { noted (number_of result) w.new ≡ obeys_at w.old pair c }
{
    if pair < w.len() / WIDTH {
        let a = pair * WIDTH;
        return obey_in(&mut w[a..a + WIDTH], c);
    }
    Err(Refusal::NoPair)
}

// Whether the pair with this number lets a PGN pass; where no row has that number, none passes.
pub fn lets_pass(w: &[u32], pair: usize, pgn: u32) -> bool
    ensures { result ≡ passes_at w.now pair pgn }
{
    let (rows, _) = w.as_chunks::<WIDTH>();
    match rows.get(pair) {
        Some(row) => passing(mode_of(row), lists(row, pgn)),
        None => false,
    }
}
