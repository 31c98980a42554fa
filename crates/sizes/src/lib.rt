// The bytes of the value of a field, by the head's edition (crates/format/specs/Layout.antt): the code's one place for these numbers.
#![tactic(auto)]

ghost use Rattle.std.specs.Prelude.{◌≡◌};
ghost use Rattle.format.specs.Layout.{head_bytes, event_bytes, data_bytes, row_bytes};

use format::Shape;

// The bytes of a value: a head; an event before its data, without and with its tear byte (edition 2); a row.
const HEAD: u8 = 3;

const EVENT: u8 = 5;

const EVENT_2: u8 = 6;

const ROW: u8 = 3;

// A pair's, in every edition.
pub const PAIR_BYTES: u8 = 2;

// The bytes of a head's value.
pub fn head_bytes(edition: u8) -> u8
    ensures { result ≡ head_bytes edition }
{
    HEAD
}

// The bytes of an event's value before its data.
pub fn event_bytes(edition: u8) -> u8
    ensures { result ≡ event_bytes edition }
{
    match edition {
        2 => EVENT_2,
        _ => EVENT,
    }
}

// The bytes of a row's value.
pub fn row_bytes(edition: u8) -> u8
    ensures { result ≡ row_bytes edition }
{
    ROW
}

// The bytes of an access's data. 16 bits, so that twice a width does not wrap.
pub fn data_bytes(a: Shape) -> u16
    ensures { result ≡ data_bytes a }
{
    let kind = a.kind;
    let width = a.width as u16;
    match kind {
        3 => width + width,
        _ => width,
    }
}
