// A frame's identifier and the three-byte numbers of a frame's data (01, "A frame").
#![tactic(auto)]

ghost use Rattle.std.specs.Prelude.{◌≡◌, cond};
ghost use Rattle.frame.specs.Frame.{fields_of, pgn_of, destination_of, three_of, pgn_bytes, spn_bytes, spn_of, rest_of};

// The greatest identifier of 29 bits (specs: greatest_identifier).
pub const GREATEST: u32 = 0x1fff_ffff;

// The six fields of a 29-bit identifier, from the top.
#[derive(Clone, Copy)]
pub struct Fields {
    pub priority: u8, // 3 bits
    pub reserved: u8, // 1 bit
    pub page: u8, // 1 bit
    pub pf: u8,
    pub ps: u8,
    pub source: u8,
}

// Three data bytes that follow each other.
#[derive(Clone, Copy)]
pub struct Three {
    pub first: u8,
    pub second: u8,
    pub third: u8,
}

// Kept: shifts and masks and no bytes of the identifier: document 01 names this form.
// The six fields, cut out by shifts and masks. (Bits above the 29 are in none of them.)
pub fn split(id: u32) -> Fields
    ensures { result ≡ fields_of id }
{
    let priority = ((id >> 26) & 7) as u8;
    let reserved = ((id >> 25) & 1) as u8;
    let page = ((id >> 24) & 1) as u8;
    let pf = ((id >> 16) & 0xff) as u8;
    let ps = ((id >> 8) & 0xff) as u8;
    let source = (id & 0xff) as u8;
    Fields {
        priority,
        reserved,
        page,
        pf,
        ps,
        source,
    }
}

// One of two numbers, by a test.
// Kept: beside `if`, as it is public; what it promises is what the check knows of an `if` that is a value.
pub fn pick8(b: bool, x: u8, y: u8) -> u8
    ensures { result ≡ cond b x y }
{
    if b { x } else { y }
}

// Reserved, data page, PF and PS as one number, the PS place 0 where PF is below 240.
pub fn pgn(f: Fields) -> u32
    ensures { result ≡ pgn_of f }
{
    let low = if f.pf < 240 { 0 } else { f.ps };
    (f.reserved as u32) * 131072 + (f.page as u32) * 65536 + (f.pf as u32) * 256 + low as u32
}

// PS where PF is below 240, otherwise everybody.
pub fn destination(f: Fields) -> u8
    ensures { result ≡ destination_of f }
{
    if f.pf < 240 { f.ps } else { 255 }
}

// Three bytes as one number, the least significant first.
pub fn number_of(b: Three) -> u32
    ensures { result ≡ three_of b }
{
    u32::from_le_bytes([b.first, b.second, b.third, 0])
}

// The three bytes of a PGN; bits above the 24 are not sent.
pub fn pgn_bytes(pgn: u32) -> Three
    ensures { result ≡ pgn_bytes pgn }
{
    let [first, second, third, _] = pgn.to_le_bytes();
    Three {
        first,
        second,
        third,
    }
}

// The three bytes of a 19-bit SPN, with the low five bits of `rest` in the five places that it leaves.
pub fn spn_bytes(spn: u32, rest: u8) -> Three
    ensures { result ≡ spn_bytes spn rest }
{
    let [first, second, third, _] = spn.to_le_bytes();
    Three {
        first,
        second,
        third: third % 8 * 32 + rest % 32,
    }
}

// The SPN of three bytes.
pub fn spn_of(b: Three) -> u32
    ensures { result ≡ spn_of b }
{
    u32::from_le_bytes([b.first, b.second, b.third / 32, 0])
}

// The five bits that the SPN leaves.
pub fn rest_of(b: Three) -> u8
    ensures { result ≡ rest_of b }
{
    b.third % 32
}
