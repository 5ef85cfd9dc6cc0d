// Answers and keys as lines.
use answers::Answer;
use lines::{end, first, more};

// What an answer carries beside its number.
pub(crate) fn detail(a: Answer) {
    let j = a.judgement;
    more(a.detail);
    more(answers::number_of(j));
    more(answers::position_of(j));
}

// The start of an answer's line.
pub(crate) fn number(a: Answer) {
    first(a.number);
    detail(a);
}

// An answer's whole line.
pub(crate) fn answer(a: Answer) {
    number(a);
    end();
}
