// Judging, packing and reading over plain lists, the rooms judge and payload.
ghost use Rattle.io.specs.Counts.{IsPrefixLen};

use lines::{STDIN_FILENO, bytes, end, first, more, numbers, room, two, words};
use payload::Unlaid;

fn laying(l: Result<u32, Unlaid>) {
    match l {
        Ok(detail) => {
            first(0u8);
            more(detail);
        }
        Err(Unlaid::Unplaced(position)) => {
            first(12u8);
            more(position);
        }
        Err(Unlaid::Length) => {
            first(13u8);
            more(0u8);
        }
        Err(Unlaid::TooWide(position)) => {
            first(14u8);
            more(position);
        }
    }
}

fn judge(n: u8, transport: bool, spns: &[u32], starts: &[u32], widths: &[u32]) {
    let j = judge::judge(n, transport, spns, starts, widths);
    first(answers::number_of(j));
    more(answers::position_of(j));
    end();
}

fn pack(starts: &[u32], widths: &[u32], given: &[u32], out: &mut [u8]) {
    laying(payload::pack(starts, widths, given, out));
    bytes(out);
    end();
}

fn read(starts: &[u32], widths: &[u32], given: &mut [u32], payload: &mut [u8]) {
    io::read_full(STDIN_FILENO, payload);
    laying(payload::read(starts, widths, payload, given));
    numbers(given);
    end();
}

// Fills the first n bytes with a pattern, and answers how many there are.
fn pattern(seed: u8, n: usize, list: &mut [u8]) -> usize
    ensures { IsPrefixLen result list.new }
{
    let n = n.min(list.len());
    let mut value = seed;
    for byte in &mut list[..n] {
        *byte = value;
        value = value.wrapping_add(29);
    }
    n
}

// A case of lists: n, transport, how many SPNs, starts, widths and numbers, a seed, how many payload bytes; then those lists.
pub(crate) fn run(b: &[u8; 14]) {
    let mut spns = room();
    let mut starts = room();
    let mut widths = room();
    let mut given = room();
    let mut payload = io::buffer();
    let p = words(b[3], &mut spns);
    let s = words(b[4], &mut starts);
    let w = words(b[5], &mut widths);
    let g = words(b[6], &mut given);
    let n = pattern(b[7], two(b[8], b[9]), &mut payload);
    match b[0] {
        8 => judge(b[1], b[2] == 1, &spns[..p], &starts[..s], &widths[..w]),
        9 => pack(&starts[..s], &widths[..w], &given[..g], &mut payload[..n]),
        _ => read(
            &starts[..s],
            &widths[..w],
            &mut given[..g],
            &mut payload[..n],
        ),
    }
}
