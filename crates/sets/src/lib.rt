// Sets of events as masks. No public function has a `requires`.
#![tactic(auto)]

ghost use Rattle.std.specs.Prelude.{◌≡◌, cond, ◌%◌, min};
ghost use Rattle.std.specs.Iterator.{at_most};
ghost use Rattle.sets.specs.Tells.{Tells};
ghost use Rattle.sets.specs.Members.{NextMember};
ghost use Rattle.sets.specs.Mask.{slots, mem, Within, insert, remove, full, above, Lowest, Rest};

// How many events a mask can hold: its bits.
pub const SLOTS: usize = 32;

// Whether the set s has the event e. Here and below an event counts by its place among the slots, e % 32, as the machine's shift has it.
pub fn has(s: u32, e: usize) -> bool
    ensures { result ≡ mem s (e % slots) }
{
    s >> (e % SLOTS) & 1 == 1
}

// The set s with the event e.
pub fn with(s: u32, e: usize) -> u32
    ensures { result ≡ insert s (e % slots) }
{
    s | 1 << (e % SLOTS)
}

// The set s without the event e.
pub fn without(s: u32, e: usize) -> u32
    ensures { result ≡ remove s (e % slots) }
{
    s & !(1 << (e % SLOTS))
}

// Whether each member of a is one of b.
pub fn subset(a: u32, b: u32) -> bool
    ensures { Tells result (Within a b) }
{
    a & !b == 0
}

// The least member of a set; 32 where it has none, as the machine's instruction has it: no Option, since callers test the set.
pub fn lowest(s: u32) -> usize
    ensures { Lowest s result }
{
    s.trailing_zeros() as usize
}

// The set of all numbers below n; of all slots where n is larger.
pub fn full(n: usize) -> u32
    ensures { result ≡ full (min n slots) }
{
    if n < SLOTS { (1 << n) - 1 } else { u32::MAX }
}

// The members from k up, each k lower.
pub fn above(s: u32, k: usize) -> u32
    ensures { result ≡ above s (k % slots) }
{
    s >> (k % SLOTS)
}

// The numbers from `from` on, below n, that are not in the set s; n counts up to the slots.
pub fn rest(s: u32, from: usize, n: usize) -> u32
    ensures { Rest s from (min n slots) result }
{
    full(n) & !full(from) & !s
}

// The set m where a test passed, else none.
pub fn only(test: bool, m: u32) -> u32
    ensures { result ≡ cond test m 0 }
{
    if test { m } else { 0 }
}

// The lesser of two numbers.
pub fn least(a: usize, b: usize) -> usize
    ensures { result ≡ min a b }
{
    a.min(b)
}

// What is left of a set whose members are taken one by one, from the least up.
#[derive(Drop)]
pub struct Ascending {
    left: u32,
}

impl Iterator for Ascending {
    type Item = usize;

    ghost next_gives = { λ s r t. NextMember s.left r t.left };

    ghost remaining = { λ s. at_most s.left };

    fn next(&mut self) -> Option<usize> {
        if self.left == 0 {
            return None;
        }
        let e = lowest(self.left);
        self.left = without(self.left, e);
        Some(e)
    }
}

// The members of a set, for a loop.
pub fn members(s: u32) -> Ascending
    ensures { result.left ≡ s }
{
    Ascending { left: s }
}
