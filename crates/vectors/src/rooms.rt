// The rooms answers, frame, message and dictionary.
use answers::Judgement;
use frame::Three;
use lines::{eight, end, first, four, more, numbers};
use message::Message;

fn judgement(number: u8, p: u8) -> Judgement {
    match number {
        0 => Judgement::Usable,
        1 => Judgement::Conflict,
        2 => Judgement::Missing(p),
        3 => Judgement::Unknown(p),
        4 => Judgement::Repeated(p),
        5 => Judgement::NotAbove(p),
        6 => Judgement::Overlaps(p),
        7 => Judgement::Beyond(p),
        9 => Judgement::Uneven(p),
        _ => Judgement::Transport,
    }
}

fn judged(j: Judgement) {
    first(answers::number_of(j));
    more(answers::position_of(j));
}

fn fields(id: u32) {
    let f = frame::split(id);
    first(f.priority);
    numbers(&[
        f.reserved as u32,
        f.page as u32,
        f.pf as u32,
        f.ps as u32,
        f.source as u32,
        frame::pgn(f),
        frame::destination(f) as u32,
    ]);
}

fn said(m: Message) {
    numbers(&[
        m.key.source as u32,
        m.key.destination as u32,
        m.key.k as u32,
        m.head.n as u32,
        m.head.proprietary as u32,
        m.head.transport as u32,
        m.position as u32,
        m.place.spn,
        m.place.start,
    ]);
}

fn decoded(id: u32, len: u8, d: &[u8; 8]) {
    match message::decode(id, len, d) {
        Ok(m) => {
            first(0u8);
            said(m);
        }
        Err(fault) => first(u8::from(fault)),
    }
}

fn three(t: Three) {
    first(t.first);
    more(t.second);
    more(t.third);
}

fn both(t: Three) {
    first(frame::rest_of(t));
    more(frame::spn_of(t));
    more(frame::number_of(t));
}

// The start of a line: 1 and a row's number, or 0.
fn found(row: Option<usize>) {
    match row {
        Some(i) => {
            first(1u8);
            more(i as u64);
        }
        None => first(0u8),
    }
}

fn row(spn: u32) {
    found(dictionary::row_of(spn));
    more(dictionary::width_of(2010, spn));
}

fn width(edition: u32, spn: u32) {
    first(dictionary::width_of(edition, spn));
}

// A case of 13 bytes: a word and further bytes.
pub(crate) fn run(b: &[u8; 14]) {
    let w = four(b[1], b[2], b[3], b[4]);
    match b[0] {
        0 => judged(judgement(b[1], b[2])),
        1 => fields(w),
        2 => decoded(w, b[5], &eight(b, 6)),
        3 => three(frame::pgn_bytes(w)),
        4 => three(frame::spn_bytes(w, b[5])),
        5 => both(Three {
            first: b[1],
            second: b[2],
            third: b[3],
        }),
        6 => row(w),
        7 => first(message::is_miscounted(b[1], b[2], b[3])),
        _ => width(four(b[5], b[6], b[7], b[8]), w),
    }
    end();
}
