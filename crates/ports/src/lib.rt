// The message filter of a bridge for four ports, in memory that the caller lends (01, "Port pairs"): a call names two ports, and the room `pairs`
// answers it from the row of their pair. specs/Filters.antt says what each call answers and leaves.
#![tactic(auto)]

ghost use Rattle.std.specs.Prelude.{◌≡◌, ◌<◌, IfSome, unwrap_or};
ghost use Rattle.answers.specs.Answers.{in_numbers, outcome};
ghost use Rattle.ports.specs.Filters.{two_ports, pair_of, fresh_words, commanded, decided};

use answers::Answer;
use pairs::Command;

// How many words the caller lends.
pub const WORDS: usize = pairs::WORDS;

// The words of the filters, as the caller lends them.
pub type Filters = [u32; WORDS];

// Whether these are two different ports, each 1 to 4.
#[tactic(auto, unfolding(crate::specs::Filters::two_ports))]
fn two_ports(from: u8, to: u8) -> bool
    ensures { result ≡ two_ports from to }
{
    (1 <= from) & ((from <= 4) & ((1 <= to) & ((to <= 4) & (from != to))))
}

// The number of a pair, 0 to 11, where the ports are one.
pub fn pair_of(from: u8, to: u8) -> Option<usize>
    ensures number { unwrap_or result 12 ≡ pair_of from to }
    ensures below { IfSome result (λ i. i < 12) }
{
    if two_ports(from, to) {
        let row = (from as usize - 1) * 3;
        if to < from {
            return Some(row + (to as usize - 1));
        }
        return Some(row + (to as usize - 2));
    }
    None
}

// A command to the pair of two ports. It becomes part of each of the three calls below, so that no answer goes through memory.
#[inline(always)]
fn command(w: &mut Filters, from: u8, to: u8, c: Command) -> Answer
    ensures { outcome (in_numbers result) w.new ≡ commanded w.old from to c }
{
    if let Some(pair) = pair_of(from, to) {
        return answers::plainly(pairs::number_of(pairs::obey(w, pair, c)));
    }
    answers::plainly(15)
}

// Adds a PGN to the list of one pair.
pub fn add(w: &mut Filters, from: u8, to: u8, pgn: u32) -> Answer
    ensures { outcome (in_numbers result) w.new ≡ commanded w.old from to (Command.Add pgn) }
{
    command(w, from, to, Command::Add(pgn))
}

// Deletes a PGN from the list of one pair.
pub fn delete(w: &mut Filters, from: u8, to: u8, pgn: u32) -> Answer
    ensures { outcome (in_numbers result) w.new ≡ commanded w.old from to (Command.Delete pgn) }
{
    command(w, from, to, Command::Delete(pgn))
}

// Sets the mode of one pair and empties its list, in a single command.
pub fn renew(w: &mut Filters, from: u8, to: u8, mode: u8) -> Answer
    ensures { outcome (in_numbers result) w.new ≡ commanded w.old from to (Command.Renew mode) }
{
    command(w, from, to, Command::Renew(mode))
}

// Decides on a frame from one port to another by its identifier: answer 0 with detail 1 for pass and 0 for block.
pub fn decide(w: &Filters, from: u8, to: u8, id: u32) -> Answer
    ensures { in_numbers result ≡ decided w.now from to id }
{
    if let Some(pair) = pair_of(from, to) {
        if frame::GREATEST < id {
            return answers::plainly(1);
        }
        let pass = pairs::lets_pass(w, pair, frame::pgn(frame::split(id)));
        return answers::with_detail(0, frame::pick8(pass, 1, 0) as u32);
    }
    answers::plainly(15)
}

// Makes all filters fresh: mode 0 and an empty list for each pair.
#[tactic(auto, unfolding(crate::specs::Filters::fresh_words))]
pub fn fresh(w: &mut Filters)
    ensures { w.new ≡ fresh_words }
{
    w.fill(0);
}
