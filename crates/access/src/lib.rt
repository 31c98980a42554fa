// Tests of one access: what 01 says by a kind, a mode and a tear (crates/format/specs/Shape.antt); by a range: crates/ranges.
#![tactic(auto)]

ghost use Rattle.std.specs.Prelude.{◌≡◌};
ghost use Rattle.format.specs.Shape.{reads, writes, marks, initial, sc, tear_free};

use format::Shape;

pub fn reads(a: Shape) -> bool
    ensures { result ≡ reads a }
{
    (a.kind == 1) | (a.kind == 3)
}

pub fn writes(a: Shape) -> bool
    ensures { result ≡ writes a }
{
    (a.kind == 2) | (a.kind == 3)
}

pub fn marks(a: Shape) -> bool
    ensures { result ≡ marks a }
{
    a.kind == 4
}

pub fn initial(a: Shape) -> bool
    ensures { result ≡ initial a }
{
    a.mode == 0
}

pub fn sc(a: Shape) -> bool
    ensures { result ≡ sc a }
{
    a.mode == 2
}

pub fn tear_free(a: Shape) -> bool
    ensures { result ≡ tear_free a }
{
    a.tear == 1
}
