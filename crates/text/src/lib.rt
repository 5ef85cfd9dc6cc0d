// Text in a lent page, one piece after another: bytes as they are, and numbers in decimal (01, "The listing program": "All numbers are decimal"). A text that is whole is handed out
// at once.
#![tactic(auto)]

ghost use Rattle.std.specs.Prelude.{◌≡◌, [], ◌∷◌, ◌≤◌, drop};
ghost use Rattle.answers.specs.Answers.{outcome, in_numbers};
ghost use Rattle.text.specs.Text.{decimal_of, page, put, put_all, handed};
ghost use Rattle.text.specs.Page.{held, Laid};

use answers::Answer;

// The digits of a number: the bytes from `from` on.
// Kept: an array and where they begin, as there is no heap here.
#[derive(Clone, Copy)]
struct Digits {
    bytes: [u8; 20],
    from: usize,
}

// The decimal digits of a number, most significant first, at the end of 20 bytes.
// Kept: digit by digit, since of a number that it writes into lent bytes std promises no byte, and a crate that does would be one more to trust.
fn in_decimal(n: u64) -> Digits
    ensures { (drop result.from result.bytes ≡ decimal_of n) × (result.from ≤ 19) }
{
    let mut b = [0u8; 20];
    let mut i = 20;
    let mut rest = n;
    while 10 <= rest {
        i -= 1;
        b[i] = (48 + rest % 10) as u8;
        rest /= 10;
    }
    i -= 1;
    b[i] = (48 + rest) as u8;
    Digits { bytes: b, from: i }
}

// Lays a piece at `at`, and says where the next one goes; where there is no room, nothing is laid.
pub fn put_bytes(out: &mut [u8], at: usize, piece: &[u8]) -> usize
    ensures { page result out.new ≡ put out.old at piece.now }
{
    if splice::copy_at(out, at, piece) {
        return at + piece.len();
    }
    at
}

// Lays a number in decimal.
pub fn put_decimal(out: &mut [u8], at: usize, n: u64) -> usize
    ensures { page result out.new ≡ put out.old at (decimal_of n) }
{
    let d = in_decimal(n);
    let b = d.bytes;
    let from = d.from;
    put_bytes(out, at, &b[from..])
}

// Lays a number in decimal, and what stands behind it.
pub fn put_number(out: &mut [u8], at: usize, n: u64, behind: &[u8]) -> usize
    ensures { page result out.new ≡ put_all (page at out.old) (decimal_of n ∷ behind.now ∷ []) }
{
    let at = put_decimal(out, at, n);
    put_bytes(out, at, behind)
}

// ---- a page

// A lent page, and where its next piece goes.
#[derive(Drop)]
pub struct Page<'a> {
    out: &'a mut [u8],
    at: usize,
}

impl<'a> Page<'a> {
    // A page whose next piece goes to `at`.
    pub fn new(out: &'a mut [u8], at: usize) -> Page<'a>
        ensures same { result.out.ghost_name ≡ out.entry.ghost_name }
        ensures holds { held result ≡ page at out.old }
    {
        Page { out, at }
    }

    // Where the next piece goes.
    pub fn at(&self) -> usize
        ensures { result ≡ self.now.at }
    {
        self.at
    }

    // Lays a piece; where there is no room, nothing is laid.
    #[tactic(auto, unfolding(crate::specs::Text::put_all))]
    pub fn bytes(&mut self, piece: &[u8])
        ensures { Laid self.old self.new (piece.now ∷ []) }
    {
        self.at = put_bytes(self.out, self.at, piece);
    }

    // Lays a number in decimal.
    #[tactic(auto, unfolding(crate::specs::Text::put_all))]
    pub fn decimal(&mut self, n: u64)
        ensures { Laid self.old self.new (decimal_of n ∷ []) }
    {
        self.at = put_decimal(self.out, self.at, n);
    }

    // Lays a number in decimal, and what stands behind it.
    pub fn number(&mut self, n: u64, behind: &[u8])
        ensures { Laid self.old self.new (decimal_of n ∷ behind.now ∷ []) }
    {
        self.at = put_number(self.out, self.at, n, behind);
    }
}

// Lays a whole text over the start of `out`: 0 with its length, modulo 2^32, or 13 and nothing written where `out` is too short.
pub fn hand_out(out: &mut [u8], text: &[u8]) -> Answer
    ensures { outcome (in_numbers result) out.new ≡ handed out.old text.now }
{
    if splice::copy_at(out, 0, text) {
        return answers::with_detail(0, (text.len() % 4294967296) as u32);
    }
    answers::plainly(13)
}
