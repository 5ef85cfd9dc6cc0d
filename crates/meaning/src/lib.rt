// What a number of an SPN means (02, Req 05): one look-up gives width, resolution, offset and kind, for any SPN; and a number as it was read becomes a number in
// thousandths of its unit (docs/UNITS.md), with its sign, and its state beside it.
#![tactic(auto)]

ghost use Rattle.std.specs.Prelude.{◌≡◌, ◌≤◌, ◌^◌, pos, ◌-ℤ◌};
ghost use Rattle.meaning.specs.Meaning.{meaning_of, scaled_of};

use states::State;

// What an SPN's numbers are; all 0 where the dictionary does not have it. Resolution and offset are in thousandths of its unit.
// Kept: kind and state are numbers here and in `Scaled`, and an unknown SPN is zeros, since C gets both structs as they are (include/yendrolf.h).
#[repr(C)]
#[derive(Clone, Copy)]
pub struct Meaning {
    pub offset: i64, // 0 or below it
    pub resolution: u32, // what one count more adds
    pub width: u32, // in bits
    pub kind: u32, // states has the list
}

// A number in thousandths of its unit, and 0 where its state is not 0 (valid) or its kind is 0 (the dictionary does not have the SPN).
#[repr(C)]
#[derive(Clone, Copy)]
pub struct Scaled {
    pub value: i64,
    pub kind: u32,
    pub state: u32, // states has the list
}

// x less y, with its sign.
fn less(x: u64, y: u64) -> i64
    requires { (x ≤ 2 ^ 62) × (y ≤ 2 ^ 62) }
    ensures { result ≡ pos x -ℤ pos y }
{
    x as i64 - y as i64
}

// Width, resolution, offset and kind of an SPN.
pub fn meaning_of(spn: u32) -> Meaning
    ensures { result ≡ meaning_of spn }
{
    let Some(entry) = dictionary::entry_of(spn) else {
        return Meaning {
            offset: 0,
            resolution: 0,
            width: 0,
            kind: 0,
        };
    };
    let slot = slots::slot_of(entry.row);
    let offset = less(0, slot.below as u64);
    let kind = states::kind_of(entry.width);
    Meaning {
        offset,
        resolution: slot.resolution,
        width: entry.width,
        kind: kind as u32,
    }
}

// A number of an SPN in thousandths of its unit, with its state.
pub fn scaled_of(spn: u32, number: u32) -> Scaled
    ensures { result ≡ scaled_of spn number }
{
    let Some(entry) = dictionary::entry_of(spn) else {
        return Scaled {
            value: 0,
            kind: 0,
            state: 0,
        };
    };
    let kind = states::kind_of(entry.width);
    let state = kind.judge(number);
    if state != State::Valid {
        return Scaled {
            value: 0,
            kind: kind as u32,
            state: state as u32,
        };
    }
    let slot = slots::slot_of(entry.row);
    let value = less(
        (number as u64) * (slot.resolution as u64),
        slot.below as u64,
    );
    Scaled {
        value,
        kind: kind as u32,
        state: state as u32,
    }
}
