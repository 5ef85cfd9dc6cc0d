// A key's edition of the dictionary: giving it another one, and which it has.
use crate::keys::key_in;
use crate::said::answer;
use lines::{STDOUT_FILENO, end, four, more};
use lookup::Table;

fn shown(number: u32) {
    io::write_all(STDOUT_FILENO, b"edition");
    more(number);
    end();
}

pub(crate) fn run(t: &mut Table, b: &[u8; 14]) {
    if b[0] == 16 {
        answer(edition::set_edition(t, key_in(b), four(b[4], b[5], b[6], b[7])));
    } else {
        shown(lookup::edition_of(t, key_in(b)));
    }
}
