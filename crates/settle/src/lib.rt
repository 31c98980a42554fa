// The lowest unsettled pair over the tables. The public function has no `requires`.
#![tactic(auto)]

ghost use Rattle.std.specs.Prelude.{◌≡◌, List, ℕ, ◌+◌, ◌%◌, ◌≤◌, min};
ghost use Rattle.sets.specs.Mask.{slots, Rest};
ghost use Rattle.cells.specs.First.{first_some};
ghost use Rattle.own.specs.Lone.{Lone};
ghost use Rattle.settle.specs.Settle.{clashing, clash_in, open_in, settled_in};
ghost use Rattle.settle.specs.steps.Ahead.{Except, free_in};
ghost use Rattle.settle.specs.steps.Once.{lone_prop};
ghost use Rattle.settle.specs.steps.Near.{nearing, wanting};

use answer::Settled;
use format::Shape;
use sets::{SLOTS, least};
use tables::COLUMNS;

// Do two accesses want an order: they share a byte, one writes, and they are not both sc with equal ranges?
fn clash(a: Shape, b: Shape) -> bool
    ensures { result ≡ clashing a b }
{
    if !ranges::overlap(a, b) {
        return false;
    }
    (access::writes(a) | access::writes(b)) & !ranges::both_sc(a, b)
}

// Do an access of e and one of d? Most events have no second access.
fn clashes(t: &[u8; COLUMNS], e: usize, d: usize) -> bool
    ensures { result ≡ clash_in t.now (e % slots) (d % slots) }
{
    let i = 2 * (e % SLOTS);
    let j = 2 * (d % SLOTS);
    let a = tables::shape(t, i);
    let c = tables::shape(t, j);
    if clash(a, c) {
        return true;
    }
    let b = tables::shape(t, i + 1);
    let f = tables::shape(t, j + 1);
    if (b.width == 0) & (f.width == 0) {
        return false;
    }
    clash(a, f) | (clash(b, c) | clash(b, f))
}

// Are e and d, of which e does not happen before d, unsettled?
fn loose(t: &[u8; COLUMNS], succ: &[u32; SLOTS], e: usize, d: usize) -> bool
    ensures { result ≡ free_in t.now succ.now (e % slots) (d % slots) }
{
    if sets::has(succ[d % SLOTS], e) {
        return false;
    }
    clashes(t, e, d)
}

// ---- the same by first accesses

// Can two accesses clash: does each begin before the other ends, and has one a kind with the bit that those that write have? One jump, at the caller:
// a difference below 0 has bit 31, and the kinds' bit 1 is moved there.
fn near(a: Shape, b: Shape) -> bool
    ensures { result ≡ nearing a b }
{
    let x = (a.start as u32).wrapping_sub(b.start as u32 + b.width as u32);
    let y = (b.start as u32).wrapping_sub(a.start as u32 + a.width as u32);
    let z = (a.kind as u32 | b.kind as u32) << 30;
    sets::has(x & y & z, 31)
}

// Do two accesses clash that can?
fn wants(a: Shape, b: Shape) -> bool
    ensures { result ≡ wanting a b }
{
    ((0 < a.width) & (0 < b.width))
        & ((access::writes(a) | access::writes(b)) & !ranges::both_sc(a, b))
}

// Are e and d unsettled, as in `loose`, where no event has a second access?
fn loose_first(t: &[u8; COLUMNS], succ: &[u32; SLOTS], e: usize, d: usize) -> bool
    requires { Lone t.now slots }
    ensures { result ≡ free_in t.now succ.now (e % slots) (d % slots) }
{
    let a = tables::shape(t, 2 * (e % SLOTS));
    let b = tables::shape(t, 2 * (d % SLOTS));
    if !near(a, b) {
        return false;
    }
    !sets::has(succ[d % SLOTS], e) & wants(a, b)
}

// ---- which accesses are looked at

// How two events are asked whether they are unsettled. Which way is picked once for a table, by the type.
trait Accesses {
    // The table that the accesses stand in.
    ghost table: { Self → List ℕ };

    // Are e and d, of which e does not happen before d, unsettled?
    fn loose(&self, succ: &[u32; SLOTS], e: usize, d: usize) -> bool
        ensures { result ≡ free_in (table self.now) succ.now (e % slots) (d % slots) };
}

// First accesses alone, where no event has a second one.
#[derive(Drop)]
struct Firsts<'a> {
    t: &'a [u8; COLUMNS],
    ghost lone: { Lone t.now slots } by { lone_prop t.now slots },
}

impl<'a> Accesses for Firsts<'a> {
    ghost table = { λ a. a.t.now };

    fn loose(&self, succ: &[u32; SLOTS], e: usize, d: usize) -> bool {
        loose_first(self.t, succ, e, d)
    }
}

// All accesses.
#[derive(Drop)]
struct All<'a> {
    t: &'a [u8; COLUMNS],
}

impl<'a> Accesses for All<'a> {
    ghost table = { λ a. a.t.now };

    fn loose(&self, succ: &[u32; SLOTS], e: usize, d: usize) -> bool {
        loose(self.t, succ, e, d)
    }
}

// ---- the lowest pair

// The members of a set that a row does not have.
fn except(s: u32, row: u32) -> u32
    ensures { Except s row result }
{
    s & !row
}

// The lowest event below n that is unsettled with e. `behind` has the events behind e.
fn partner<A: Accesses>(
    of: &A,
    succ: &[u32; SLOTS],
    behind: u32,
    n: usize,
    e: usize,
) -> Option<usize>
    requires { (n ≤ slots) × Rest 0 (e % slots + 1) n behind }
    ensures { result ≡ first_some (open_in (A.table of.now) succ.now (e % slots)) n }
{
    // those that e does not happen before
    for d in sets::members(except(behind, succ[e % SLOTS])) {
        if of.loose(succ, e, d) {
            return Some(d);
        }
    }
    None
}

// Orderly, or the lowest unsettled pair of the first n events.
fn lowest<A: Accesses>(of: &A, succ: &[u32; SLOTS], n: usize) -> Settled
    requires { n ≤ slots }
    ensures { result ≡ settled_in (A.table of.now) succ.now n }
{
    let mut behind = sets::full(n);
    for e in 0..n {
        behind = sets::without(behind, e);
        if let Some(d) = partner(of, succ, behind, n, e) {
            return Settled::Unsettled(e as u8, d as u8);
        }
    }
    Settled::Orderly
}

// Orderly, or the lowest unsettled pair.
pub fn settle(t: &[u8; COLUMNS], succ: &[u32; SLOTS], n: usize) -> Settled
    ensures { result ≡ settled_in t.now succ.now (min n slots) }
{
    let m = least(n, SLOTS);
    if own::lone(t) {
        return lowest(&Firsts { t }, succ, m);
    }
    lowest(&All { t }, succ, m)
}
