// A message as a frame says it: the identifier and the eight data bytes of its Configuration Identification Message (002, 5.3.1; docs/WIRE.md), and its record
// in a log. The other way of message::decode. A message's numbers may be any: each is cut to the bits that it has on the wire.
#![tactic(auto)]

ghost use Rattle.std.specs.Prelude.{◌≡◌, [], ◌∷◌, ◌≤◌};
ghost use Rattle.answers.specs.Answers.{outcome, in_numbers};
ghost use Rattle.record.specs.Record.{written};
ghost use Rattle.written.specs.Written.{id_of, head_byte, five_of, with_key, data_of};

use answers::Answer;
use message::{Head, Key, Message, Place};

// Priority 6, reserved and data page 0, PF 176: the identifier of a Configuration Identification Message without its two addresses.
const CONFIGURATION: u32 = 0x18b0_0000;

// The length of every such frame.
const LENGTH: u8 = 8;

// The identifier of a key's frames.
pub fn id_of(key: Key) -> u32
    ensures { result ≡ id_of key }
{
    CONFIGURATION + key.destination as u32 * 256 + key.source as u32
}

// Byte 7: proprietary, transport, first-only, which is no, and n; yes is 1 and no is 0.
pub fn head_byte(h: Head) -> u8
    ensures { result ≡ head_byte h }
{
    u8::from(h.proprietary) * 128 + u8::from(h.transport) * 64 + h.n % 32
}

// Bytes 4 to 8: what the message says of its position. The starting bit counts from 1.
pub fn five_of(h: Head, position: u8, x: Place) -> [u8; 5]
    ensures { result ≡ five_of h position x }
{
    let b = frame::spn_bytes(x.spn, position);
    let flags = head_byte(h);
    let start = (x.start % 256 + 1) % 256;
    [b.first, b.second, b.third, flags, start as u8]
}

// The eight bytes of a key's frame: the PGN of its message k, and five more.
pub fn with_key(k: u8, five: [u8; 5]) -> [u8; 8]
    ensures { result ≡ with_key k five }
{
    let pgn = frame::pgn_bytes(45056 + 256 * k as u32);
    let [a, b, c, d, e] = five;
    [pgn.first, pgn.second, pgn.third, a, b, c, d, e]
}

// The eight bytes of a message.
pub fn data_of(m: Message) -> [u8; 8]
    ensures { result ≡ data_of m }
{
    let key = m.key;
    let head = m.head;
    let place = m.place;
    let five = five_of(head, m.position, place);
    with_key(key.k, five)
}

// Lays the record of a message over the first 13 bytes: 0, or 13 and nothing written where there are fewer.
pub fn write(s: &mut [u8], m: Message) -> Answer
    ensures { outcome (in_numbers result) s.new ≡ written s.old (id_of m.key) 8 (data_of m) }
{
    let key = m.key;
    let d = data_of(m);
    record::write(s, id_of(key), LENGTH, &d)
}
