// Tests of the range of an access, and of two: what 01 says by a start and a width (crates/format/specs/Shape.antt).
#![tactic(auto)]

ghost use Rattle.std.specs.Prelude.{◌≡◌};
ghost use Rattle.format.specs.Shape.{covers, overlap, equal, both_sc, unbroken};

use access::sc;
use format::Shape;

pub fn covers(a: Shape, n: u8) -> bool
    ensures { result ≡ covers a n }
{
    (a.start <= n) & ((n as u16) < a.start as u16 + a.width as u16)
}

// Sums of two bytes are taken in 16 bits, so that none wraps.
pub fn overlap(a: Shape, b: Shape) -> bool
    ensures { result ≡ overlap a b }
{
    let a_end = a.start as u16 + a.width as u16;
    let b_end = b.start as u16 + b.width as u16;
    let meet = ((a.start as u16) < b_end) & ((b.start as u16) < a_end);
    (0 < a.width) & ((0 < b.width) & meet)
}

pub fn equal(a: Shape, b: Shape) -> bool
    ensures { result ≡ equal a b }
{
    (a.start == b.start) & (a.width == b.width)
}

// A width of 1, 2 or 4 that divides the start; without a jump by the width, which is hard to foresee.
pub fn unbroken(width: u8, start: u8) -> bool
    ensures { result ≡ unbroken width start }
{
    (width == 1) | (((width == 2) & (start % 2 == 0)) | ((width == 4) & (start % 4 == 0)))
}

// Both sc with equal ranges.
pub fn both_sc(a: Shape, b: Shape) -> bool
    ensures { result ≡ both_sc a b }
{
    sc(a) & (sc(b) & equal(a, b))
}
