// Whether a number that was read is a measurement (02, Req 05). Drivers read 255 as a pressure: J1939-71 keeps the top of a parameter's range for "reserved",
// "error" and "not available". Which of these a number is goes by the width of its parameter alone.
#![tactic(auto)]

ghost use Rattle.std.specs.Prelude.{◌≡◌, ◌<◌, min};
ghost use Rattle.states.specs.States.{by_byte, by_two_bits, kind_of, state_by, state_of, states_over, state_number, kind_number};

// What a number says: a measurement, or what stands in its place. As numbers they are 0 to 3, in this order.
#[derive(Clone, Copy, PartialEq, Eq)]
pub enum State {
    Valid,
    Reserved,
    Error,
    NotAvailable,
}

// Which row of J1939-71's table judges the numbers of a width. As numbers they are 0 to 5, in this order.
#[derive(Clone, Copy, PartialEq, Eq)]
pub enum Kind {
    Unknown, // the width of an SPN that the dictionary does not have
    TwoBits,
    Byte,
    TwoBytes,
    FourBytes,
    NoRow, // any other width
}

// The state of a byte that judges, the only or the top one of its number.
// Kept: tests in a row and no `match` of ranges. They are in the order in which they come about: a `match` asks for 254 first, and 64 states
// were then laid in 1.2 of the time.
#[tactic(auto, unfolding(crate::specs::States::by_byte))]
fn by_byte(b: u32) -> State
    ensures { state_number result ≡ by_byte b }
{
    if b <= 250 {
        return State::Valid;
    }
    if b <= 253 {
        return State::Reserved;
    }
    if b == 254 {
        return State::Error;
    }
    State::NotAvailable
}

// The state of a number of two bits.
#[tactic(auto, unfolding(crate::specs::States::by_two_bits))]
fn by_two_bits(x: u32) -> State
    ensures { state_number result ≡ by_two_bits x }
{
    match x {
        0 | 1 => State::Valid,
        2 => State::Error,
        _ => State::NotAvailable,
    }
}

// Which row of J1939-71's table judges the numbers of a width.
#[tactic(auto, unfolding(crate::specs::States::kind_of))]
pub fn kind_of(width: u32) -> Kind
    ensures { kind_number result ≡ kind_of width }
{
    match width {
        0 => Kind::Unknown,
        2 => Kind::TwoBits,
        8 => Kind::Byte,
        16 => Kind::TwoBytes,
        32 => Kind::FourBytes,
        _ => Kind::NoRow,
    }
}

impl Kind {
    // What the row says of a number.
    #[tactic(auto, unfolding(crate::specs::States::state_by))]
    pub fn judge(self, number: u32) -> State
        ensures { state_number result ≡ state_by (kind_number self) number }
    {
        match self {
            Kind::TwoBits => by_two_bits(number),
            Kind::Byte => by_byte(number),
            Kind::TwoBytes => by_byte(number / 256),
            Kind::FourBytes => by_byte(number / 16777216),
            Kind::Unknown | Kind::NoRow => State::Valid,
        }
    }
}

impl From<u8> for Kind {
    ghost from_gives = { λ number kind. kind_number kind ≡ min number 5 };

    // The kind with a number; a number above 5 has no row.
    fn from(number: u8) -> Kind {
        match number {
            0 => Kind::Unknown,
            1 => Kind::TwoBits,
            2 => Kind::Byte,
            3 => Kind::TwoBytes,
            4 => Kind::FourBytes,
            _ => Kind::NoRow,
        }
    }
}

// What the row of a kind says of a number, by the kind's number. Whoever holds the kind itself asks it (`judge`).
// Kept: the kind is a number here, since the promise (`state_by`) also says what a number above 5 does.
pub fn state_by(kind: u8, number: u32) -> State
    ensures { state_number result ≡ state_by kind number }
{
    Kind::from(kind).judge(number)
}

// The state of a number of a parameter of less than one byte: two bits have a row, and no other width.
#[tactic(auto, unfolding(crate::specs::States::kind_of, crate::specs::States::state_by))]
fn narrow_state(width: u32, number: u32) -> State
    requires { width < 8 }
    ensures { state_number result ≡ state_of width number }
{
    if width == 2 {
        return by_two_bits(number);
    }
    State::Valid
}

// The state of a number of a parameter of this width. Most are narrow: they are not asked for a row of bytes.
pub fn state_of(width: u32, number: u32) -> State
    ensures { state_number result ≡ state_of width number }
{
    if width < 8 {
        return narrow_state(width, number);
    }
    kind_of(width).judge(number)
}

// The states of many numbers: that of each is laid over the start of `states`, as far as widths, numbers and states reach.
// Kept: the states are laid as numbers, in bytes that C lends (include/yendrolf.h).
pub fn lay(widths: &[u32], numbers: &[u32], states: &mut [u8])
    ensures { states.new ≡ states_over widths.now numbers.now states.old }
{
    for i in 0..widths.len().min(numbers.len()).min(states.len()) {
        states[i] = state_of(widths[i], numbers[i]) as u8;
    }
}
