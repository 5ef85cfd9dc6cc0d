// Which edition of the dictionary a key's map is measured by (02, Req 10): a command gives a held key another one. The learned table is lent as words; whatever they
// hold, the call has its defined answer. How the edition lies in a row is the crate keyrow's, and the crate lookup reads it.
#![tactic(auto)]

ghost use Rattle.std.specs.Prelude.{◌≡◌, ◌<◌};
ghost use Rattle.answers.specs.Answers.{in_numbers, outcome};
ghost use Rattle.history.specs.History.{most_keys, is_edition};
ghost use Rattle.keyrow.specs.Row.{key_number};
ghost use Rattle.keyrow.specs.View.{edited_row};
ghost use Rattle.lookup.specs.Layout.{row_of};
ghost use Rattle.table.specs.Layout.{put_row};
ghost use Rattle.edition.specs.Edition.{edited};

use answers::Answer;
use keyrow::{EDITION_2004, EDITION_2010, FORM, ROW_WORDS};
use lookup::Table;
use message::Key;

// Whether a number is one of the two editions.
// Kept: a number and no enum, as keyrow says.
fn is_edition(edition: u32) -> bool
    ensures { result ≡ is_edition edition }
{
    (edition == EDITION_2004) | (edition == EDITION_2010)
}

// Row i with another edition: its form word is written, and no other.
fn edit_at(t: &mut Table, i: usize, edition: u32)
    requires { i < most_keys }
    ensures { t.new ≡ put_row t.old i (edited_row (row_of t.old i) edition) }
{
    let at = i * ROW_WORDS + FORM;
    t[at] = keyrow::with_edition(t[at], edition);
}

// Gives a held key another edition, 2004 or 2010: 11, 27 where it is neither, else 0.
pub fn set_edition(t: &mut Table, key: Key, edition: u32) -> Answer
    ensures { outcome (in_numbers result) t.new ≡ edited t.old (key_number key) edition }
{
    let Some(i) = lookup::slot_of(t, key) else { // 11, before 27
        return answers::plainly(11);
    };
    if !is_edition(edition) {
        return answers::plainly(27);
    }
    edit_at(t, i, edition);
    answers::plainly(0)
}
