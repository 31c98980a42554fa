// What stands where in the value of a field, by the head's edition (crates/format/specs/Layout.antt): the code's one place for it, but for how many
// bytes it has (crates/sizes).
#![tactic(auto)]

ghost use Rattle.std.specs.Prelude.{◌≡◌};
ghost use Rattle.format.specs.Shape.{tear_of};
ghost use Rattle.format.specs.Layout.{tear_by, head_of, shape_of, row_of, pair_of};

use format::{Head, Pair, Row, Shape, field};
use ranges::unbroken;

pub fn head_of(edition: u8, v: &[u8]) -> Head
    ensures { result ≡ head_of edition v.now }
{
    Head {
        edition: field::byte(v, 0),
        agents: field::byte(v, 1),
        size: field::byte(v, 2),
    }
}

// 01's rule for tear-free.
fn tear_of(kind: u8, mode: u8, start: u8, width: u8) -> u8
    ensures { result ≡ tear_of kind mode start width }
{
    let free = (kind != 4) & ((mode == 2) | ((mode == 1) & unbroken(width, start)));
    if free { 1 } else { 0 }
}

// The tear byte: edition 2 says it, edition 1 has the rule.
fn tear_by(edition: u8, kind: u8, mode: u8, start: u8, width: u8, sixth: u8) -> u8
    ensures { result ≡ tear_by edition kind mode start width sixth }
{
    match edition {
        2 => sixth,
        _ => tear_of(kind, mode, start, width),
    }
}

pub fn shape_of(edition: u8, v: &[u8]) -> Shape
    ensures { result ≡ shape_of edition v.now }
{
    let kind = field::byte(v, 1);
    let mode = field::byte(v, 2);
    let start = field::byte(v, 3);
    let width = field::byte(v, 4);
    let sixth = field::byte(v, 5);
    Shape {
        kind: kind,
        mode: mode,
        start: start,
        width: width,
        tear: tear_by(edition, kind, mode, start, width, sixth),
    }
}

pub fn row_of(edition: u8, v: &[u8]) -> Row
    ensures { result ≡ row_of edition v.now }
{
    Row {
        reader: field::byte(v, 0),
        address: field::byte(v, 1),
        writer: field::byte(v, 2),
    }
}

pub fn pair_of(v: &[u8]) -> Pair
    ensures { result ≡ pair_of v.now }
{
    Pair {
        first: field::byte(v, 0),
        second: field::byte(v, 1),
    }
}
