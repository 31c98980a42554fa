// Equal ranges by masks: for each sc access the set of the events that have a writing sc access with its range. The public function has no `requires`.
#![tactic(auto)]

ghost use Rattle.std.specs.Prelude.{◌≡◌, ℕ, ◌*◌, ◌%◌, min, eqb, length, get_or, replicate};
ghost use Rattle.sets.specs.Mask.{slots};
ghost use Rattle.sets.specs.Tells.{Tells};
ghost use Rattle.cells.specs.Cells.{placing};
ghost use Rattle.format.specs.Shape.{sc};
ghost use Rattle.tables.specs.Tables.{accesses};
ghost use Rattle.tables.specs.Seconds.{NoSecond};
ghost use Rattle.alike.specs.Ranges.{writers_in, match, side_in, equals_on};
ghost use Rattle.alike.specs.steps.Keys.{Keyed, KeysIn};

use cells::{place, take};
use format::Shape;
use sets::{SLOTS, least};
use tables::{ACCESSES, COLUMNS};

// A number for the range of an sc access: equal ranges have equal numbers, others have not. 0 for an access that is not sc.
pub fn key(a: Shape) -> u32
    ensures { Keyed a result }
{
    let x = a.start as u32 * 256 + a.width as u32 + 1;
    if access::sc(a) { x } else { 0 }
}

// The keys of the accesses of the events below n; n counts up to the slots, and so below.
fn keys(t: &[u8; COLUMNS], n: usize, keys: &mut [u32])
    ensures { KeysIn t.now (2 * min n slots) keys.old keys.new }
{
    let m = 2 * least(n, SLOTS);
    for k in 0..m {
        place(keys, k, key(tables::shape(t, k)));
    }
}

// The events below n whose first access, or second one where b is odd, writes sc.
fn writers(t: &[u8; COLUMNS], n: usize, b: usize) -> u32
    ensures { result ≡ writers_in t.now (min n slots) (b % 2) }
{
    let m = least(n, SLOTS);
    let mut s = 0;
    for v in 0..m {
        let a = tables::shape(t, 2 * v + b % 2);
        s = take(s, v, access::sc(a) & access::writes(a));
    }
    s
}

// Each of the first n masks gains v where the key x stands; without a jump, and several masks at once. By number: of what an adapter of `iter_mut` leaves the
// check knows nothing.
fn gains(keys: &[u32; ACCESSES], n: usize, x: u32, v: usize, eq: &mut [u32])
    ensures { eq.new ≡ placing (match (λ (k : ℕ). eqb (get_or keys.now k 0) x) (v % slots) eq.old) (min n (min accesses (length eq.old))) eq.old }
{
    let m = least(n, least(ACCESSES, eq.len()));
    for k in 0..m {
        eq[k] = take(eq[k], v, keys[k] == x);
    }
}

// The mask of each slot gains the events whose first access, or second one where b is odd, writes sc with its range.
fn side(t: &[u8; COLUMNS], keys: &[u32; ACCESSES], n: usize, b: usize, eq: &mut [u32])
    requires { KeysIn t.now (2 * min n slots) (replicate accesses 0) keys.now }
    ensures { eq.new ≡ side_in t.now (min n slots) (b % 2) eq.old }
{
    let span = (least(n, SLOTS) + 3) / 4 * 8; // eight slots at a time; those beyond have no key
    for v in sets::members(writers(t, n, b)) {
        gains(keys, span, keys[2 * v + b % 2], v, eq);
    }
}

// Is no second access sc? All slots are looked at, without a jump, so that the machine takes several at once.
fn single(t: &[u8; COLUMNS]) -> bool
    ensures { Tells result (NoSecond sc t.now accesses) }
{
    let mut c = false;
    for k in 0..ACCESSES {
        c = c | ((k % 2 == 1) & access::sc(tables::shape(t, k)));
    }
    !c
}

// The mask of each slot of the events below n gains the events of these that write sc with its range, where it is sc. Mostly no second access is sc,
// and none is looked for.
pub fn equals(t: &[u8; COLUMNS], n: usize, eq: &mut [u32])
    ensures { eq.new ≡ equals_on t.now (min n slots) eq.old }
{
    let mut by_slot = [0u32; ACCESSES];
    keys(t, n, &mut by_slot);
    side(t, &by_slot, n, 0, eq);
    if single(t) {
        return;
    }
    side(t, &by_slot, n, 1, eq);
}
