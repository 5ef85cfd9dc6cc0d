// The answers of document 01: a number, a detail, and the judgement nested in them (01, "Answer numbers").
// Only this room takes a Judgement apart; the others build its cases and compare numbers.
#![tactic(auto)]

ghost use Rattle.std.specs.Prelude.{◌≡◌};
ghost use Rattle.answers.specs.Answers.{said_of, in_numbers, plain, detailed, judged, unusable};

// What a map is worth (01, "A set and its judgement"; 02, Req 04), in the order of the tests; a case that concerns a position carries it.
#[derive(Clone, Copy)]
pub enum Judgement {
    Usable,
    Conflict,
    Missing(u8),
    Unknown(u8),
    Repeated(u8),
    NotAbove(u8),
    Uneven(u8),
    Overlaps(u8),
    Beyond(u8),
    Transport,
}

// Kept: a number with what it carries, and no Result: document 01 names this form, a judgement nested in the answer struct, and the law same_answer is of this struct.
// The detail is 0 unless 01 says another; where the number is 12, and for 0 of judging, the judgement is the detail.
#[derive(Clone, Copy)]
pub struct Answer {
    pub number: u8,
    pub detail: u32,
    pub judgement: Judgement,
}

// The number of a judgement in 01 and 02.
// Kept: this and the next by their names and no From: docs/PROMISES.md has both, and one enum has two numbers.
pub fn number_of(j: Judgement) -> u8
    ensures { result ≡ (said_of j).number }
{
    match j {
        Judgement::Usable => 0,
        Judgement::Conflict => 1,
        Judgement::Missing(_) => 2,
        Judgement::Unknown(_) => 3,
        Judgement::Repeated(_) => 4,
        Judgement::NotAbove(_) => 5,
        Judgement::Uneven(_) => 9,
        Judgement::Overlaps(_) => 6,
        Judgement::Beyond(_) => 7,
        Judgement::Transport => 8,
    }
}

// The position that a judgement names, 0 where it names none.
pub fn position_of(j: Judgement) -> u8
    ensures { result ≡ (said_of j).position }
{
    match j {
        Judgement::Usable => 0,
        Judgement::Conflict => 0,
        Judgement::Missing(p) => p,
        Judgement::Unknown(p) => p,
        Judgement::Repeated(p) => p,
        Judgement::NotAbove(p) => p,
        Judgement::Uneven(p) => p,
        Judgement::Overlaps(p) => p,
        Judgement::Beyond(p) => p,
        Judgement::Transport => 0,
    }
}

// An answer whose detail is 0.
pub fn plainly(number: u8) -> Answer
    ensures { in_numbers result ≡ plain number }
{
    Answer {
        number,
        detail: 0,
        judgement: Judgement::Usable,
    }
}

// An answer with a number as its detail: 0 with a length, 14 with a position.
pub fn with_detail(number: u8, detail: u32) -> Answer
    ensures { in_numbers result ≡ detailed number detail }
{
    Answer {
        number,
        detail,
        judgement: Judgement::Usable,
    }
}

// Answer 0 of judging.
pub fn judgement_is(judgement: Judgement) -> Answer
    ensures { in_numbers result ≡ judged (said_of judgement) }
{
    Answer {
        number: 0,
        detail: 0,
        judgement,
    }
}

// Answer 12: the map is not usable, and why.
pub fn not_usable(judgement: Judgement) -> Answer
    ensures { in_numbers result ≡ unusable (said_of judgement) }
{
    Answer {
        number: 12,
        detail: 0,
        judgement,
    }
}
