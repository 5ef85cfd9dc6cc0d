// A log in chunks, and its listing.
use crate::said::answer;
use feeding::Tally;
use lines::{STDIN_FILENO, STDOUT_FILENO, end, front, two};
use lookup::Table;

fn fed(t: &mut Table, tally: Tally, chunk: &mut [u8]) -> Tally {
    io::read_full(STDIN_FILENO, chunk);
    feeding::feed(t, tally, chunk)
}

// Takes the next chunk, with its size before it.
fn next(t: &mut Table, tally: Tally) -> Tally {
    let mut b = [0u8; 2];
    io::read_full(STDIN_FILENO, &mut b);
    let mut chunk = io::buffer();
    let n = front(two(b[0], b[1]), &chunk);
    fed(t, tally, &mut chunk[..n])
}

fn finish(t: &Table, tally: Tally, out: &mut [u8]) {
    io::read_full(STDIN_FILENO, out);
    answer(listing::finish(t, tally, out));
    io::write_all(STDOUT_FILENO, out);
    end();
}

fn finish_in(t: &Table, tally: Tally, size: usize) {
    let mut out = io::buffer();
    let n = front(size, &out);
    finish(t, tally, &mut out[..n]);
}

fn all(t: &mut Table, chunks: usize) -> Tally {
    let mut tally = feeding::start();
    for _ in 0..chunks {
        tally = next(t, tally);
    }
    tally
}

// How many chunks, how large the buffer; then the chunks, and what the buffer held.
pub(crate) fn run(t: &mut Table, b: &[u8; 14]) {
    let tally = all(t, two(b[1], b[2]));
    finish_in(t, tally, two(b[3], b[4]));
}
