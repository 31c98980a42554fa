// Closure by rows: a whole row of successors at once, two pivots in one pass over the rows. The public function has no `requires`.
#![tactic(auto)]

ghost use Rattle.std.specs.Prelude.{◌≡◌, ◌%◌, ◌<◌, ◌≤◌, length};
ghost use Rattle.std.specs.Int.Bits.{bit_or};
ghost use Rattle.sets.specs.Mask.{slots};
ghost use Rattle.closing.specs.Closure.{taken, Closed};
ghost use Rattle.closing.specs.steps.Sweep.{absorb, noted, Pivots, Second, Swept};

use sets::{SLOTS, least};

// ---- which pivots there are

// The set s of the events that lead somewhere, once event e has been looked at, whose row is x.
fn note(s: u32, e: usize, x: u32) -> u32
    ensures { result ≡ noted s (e % slots) x }
{
    if x == 0 { s } else { sets::with(s, e) }
}

// The pivots of the first n rows: events that lead somewhere and to which some row leads. Through any other there is no way, so it is passed over.
fn pivots(rows: &[u32], n: usize) -> u32
    requires { (n ≤ slots) × (n ≤ length rows.now) }
    ensures { Pivots n rows.now result }
{
    let mut into: u32 = 0;
    let mut from: u32 = 0;
    for (e, &x) in rows[..n].iter().enumerate() {
        into |= x;
        from = note(from, e, x);
    }
    into & from
}

// The pivot that is done with k: the least of those that are left, or k again.
fn second(left: u32, k: usize) -> usize
    ensures { Second left k result }
{
    if left == 0 { k } else { sets::lowest(left) }
}

// ---- two pivots

// The row x after pivot k, whose row is `row`: with k in it, it takes in what k leads to.
fn absorb(x: u32, k: usize, row: u32) -> u32
    ensures { result ≡ absorb x (k % slots) row }
{
    if sets::has(x, k) { x | row } else { x }
}

// The row x with what both pivots lead to, of those that are in it.
fn absorb_both(x: u32, k: usize, row: u32, j: usize, other: u32) -> u32
    ensures { result ≡ bit_or (absorb x (k % slots) row) (absorb x (j % slots) other) }
{
    absorb(x, k, row) | absorb(x, j, other)
}

// Each of the first n rows after pivot k and then pivot j. What j leads to is worked out first, and then what k leads to through j as well, so that
// each row is looked at once for both.
fn sweep(rows: &mut [u32], n: usize, k: usize, j: usize)
    requires { (k < n) × (j < n) × (n ≤ slots) × (n ≤ length rows.old) }
    ensures { Swept n k j rows.old rows.new }
{
    let first = rows[k];
    let other = absorb(rows[j], k, first);
    let row = absorb(first, j, other);
    for x in &mut rows[..n] {
        *x = absorb_both(*x, k, row, j, other);
    }
}

// ---- the whole

// The transitive closure of the first n rows, a whole row of successors at once; n counts up to the slots and the rows there are.
pub fn close(rows: &mut [u32], n: usize)
    ensures { Closed (taken n rows.old) rows.old rows.new }
{
    let m = least(n, least(SLOTS, rows.len()));
    let mut left = pivots(rows, m);
    // Two pivots are taken a turn, where a `for` over the members of a set takes one.
    while left != 0 {
        let k = sets::lowest(left);
        let others = sets::without(left, k);
        let j = second(others, k);
        sweep(rows, m, k, j);
        left = sets::without(others, j);
    }
}
