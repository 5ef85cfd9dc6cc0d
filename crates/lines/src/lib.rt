// What the test programs read and write: numbers and lists from standard input, a line of text for each answer; and a line at once, as the programs write whose lines another
// program sets for a person. No promise can say what is read or written; of each result it says the rest.
#![tactic(auto)]

ghost use Rattle.std.specs.Prelude.{◌≡◌, ◌+◌, ◌*◌, ◌≤◌, min, length, replicate, set, drop};
ghost use Rattle.io.specs.Counts.{IsPrefixLen};
ghost use Rattle.splice.specs.Splice.{covered};

use std::io::{Print, Result};
use text::Page;

// The descriptors of standard input and standard output.
pub const STDIN_FILENO: i32 = 0;

pub const STDOUT_FILENO: i32 = 1;

// The first number of a line.
pub fn first<T: Into<u64>>(n: T) {
    io::print_decimal(STDOUT_FILENO, n.into());
}

// A further number of a line.
pub fn more<T: Into<u64>>(n: T) {
    io::write_all(STDOUT_FILENO, b" ");
    io::print_decimal(STDOUT_FILENO, n.into());
}

// Further numbers of a line.
pub fn numbers<T: Copy + Into<u64>>(list: &[T]) {
    for n in list {
        more(*n);
    }
}

fn hex(b: u8) {
    io::print_hex(STDOUT_FILENO, b as u64, 2);
}

fn hexes(list: &[u8]) {
    for b in list {
        hex(*b);
    }
}

// Bytes, two hexadecimal digits each, as one word of a line.
pub fn bytes(list: &[u8]) {
    io::write_all(STDOUT_FILENO, b" ");
    hexes(list);
}

// The end of a line.
pub fn end() {
    io::write_all(STDOUT_FILENO, b"\n");
}

// Reads a case over a buffer that is as long; false where the input ends.
pub fn case(b: &mut [u8]) -> bool {
    b.len() <= io::read_full(STDIN_FILENO, b)
}

// The next case of the input, of N bytes; none where fewer are left.
pub fn next_case<const N: usize>() -> Option<[u8; N]> {
    let mut b = [0u8; N];
    case(&mut b).then_some(b)
}

// Two bytes as a number, the least significant first.
pub fn two(a: u8, b: u8) -> usize
    ensures { result ≡ a + b * 256 }
{
    u16::from_le_bytes([a, b]) as usize
}

// Four bytes as a number, the least significant first.
pub fn four(a: u8, b: u8, c: u8, d: u8) -> u32
    ensures { result ≡ a + b * 256 + c * 65536 + d * 16777216 }
{
    u32::from_le_bytes([a, b, c, d])
}

// The eight bytes of a case from a place on, and 0 past its end.
pub fn eight(b: &[u8], at: usize) -> [u8; 8]
    ensures { result ≡ covered (replicate 8 0) (drop at b.now) }
{
    let mut bytes = [0u8; 8];
    splice::copy_in(&mut bytes, b.get(at..).unwrap_or(b""));
    bytes
}

// A number of a case laid into lent words at a place; past the end nothing is.
// Kept: a test and a store, since nothing is promised of what a slice holds after `get_mut`.
pub fn put<T: Copy>(words: &mut [T], at: usize, word: T)
    ensures { words.new ≡ set words.old at word }
{
    if at < words.len() {
        words[at] = word;
    }
}

// How many of n bytes a buffer has room for.
pub fn front(n: usize, buffer: &[u8]) -> usize
    ensures { IsPrefixLen result buffer.now × (result ≡ min n (length buffer.now)) }
{
    n.min(buffer.len())
}

fn word() -> u32 {
    let mut b = [0u8; 4];
    io::read_full(STDIN_FILENO, &mut b);
    u32::from_le_bytes(b)
}

// Room for a list of numbers.
pub fn room() -> [u32; 72]
    ensures { (72 ≡ length result) × (result ≡ replicate 72 0) }
{
    [0; 72]
}

// Reads n numbers into the front of a list, as many as it has room for, and answers how many there are.
pub fn words(n: u8, list: &mut [u32]) -> usize
    ensures { IsPrefixLen result list.new × (result ≡ min n (length list.old)) }
{
    let n = list.len().min(n as usize);
    list[..n].fill_with(word);
    n
}

// ---- a line at once

// Lays numbers into a page, each with a blank before it.
fn lay_numbers(page: &mut Page, numbers: &[u64]) {
    for n in numbers {
        page.bytes(b" ");
        page.decimal(*n);
    }
}

// Writes a line of a word and numbers, for another program to read; an error says why not all of it was written. It has room for eleven numbers of any size behind a short word.
pub fn line<P: Print>(out: &P, word: &[u8], numbers: &[u64]) -> Result<()> {
    let mut bytes = [0u8; 256];
    let mut page = Page::new(&mut bytes, 0);
    page.bytes(word);
    lay_numbers(&mut page, numbers);
    page.bytes(b"\n");
    let n = front(page.at(), &bytes);
    out.write_all(&bytes[..n])
}
