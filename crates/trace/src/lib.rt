// The records of a trace (02, Req 09; docs/DECISIONS.md): 14 bytes each, a first byte that says what it is, and 13 more. What a trace that comes in chunks needs is in `record`, for records of any size.
#![tactic(auto)]

ghost use Rattle.std.specs.Prelude.{◌≡◌};
ghost use Rattle.trace.specs.Entry.{entry_in};

// The bytes of a record.
pub const SIZE: usize = 14;

// What a record says: a frame with this identifier came in at a port; a slot of a port; a command of the fitter to a pair; or nothing of these.
#[derive(Clone, Copy)]
pub enum Entry {
    Frame { port: u8, id: u32 },
    Slot { port: u8 },
    Add { from: u8, to: u8, pgn: u32 },
    Delete { from: u8, to: u8, pgn: u32 },
    Renew { from: u8, to: u8, mode: u8 },
    Other,
}

// The first bytes of slots, 129 to 132, are above those of their ports by so much.
const SLOT: u8 = 128;

// The first bytes of commands.
const ADD: u8 = 65;

const DELETE: u8 = 66;

const RENEW: u8 = 67;

// The entry in the first 14 bytes, or none of the others where there are fewer.
pub fn read(s: &[u8]) -> Entry
    ensures { result ≡ entry_in s.now }
{
    if s.len() < SIZE {
        return Entry::Other;
    }
    let pgn = frame::number_of(frame::Three {
        first: s[3],
        second: s[4],
        third: s[5],
    });
    match s[0] {
        b if (1 <= b) & (b <= 4) => {
            let f = record::read(&s[1..14]);
            Entry::Frame { port: b, id: f.id }
        }
        b if (129 <= b) & (b <= 132) => Entry::Slot { port: b - SLOT },
        ADD => Entry::Add {
            from: s[1],
            to: s[2],
            pgn,
        },
        DELETE => Entry::Delete {
            from: s[1],
            to: s[2],
            pgn,
        },
        RENEW => Entry::Renew {
            from: s[1],
            to: s[2],
            mode: s[3],
        },
        _ => Entry::Other,
    }
}
