// A lent list of event numbers, held against the tables: its first fault, or that there is none. It knows nothing of sheets' bytes.
// No public function has a `requires`: events count up to the slots, rows up to those that have a place.
#![tactic(auto)]

ghost use Rattle.std.specs.Prelude.{◌≡◌, ℕ, ◌%◌, ◌≤◌, min, length, get_or};
ghost use Rattle.basis.specs.Test.{◌and◌, ◌else◌};
ghost use Rattle.sets.specs.Mask.{slots, mem};
ghost use Rattle.cells.specs.First.{first_some};
ghost use Rattle.tables.specs.Tables.{row_room};
ghost use Rattle.log_order.specs.Listed.{bad_at, early_fault, bar_fault, list_fault, said_of};
ghost use Rattle.log_order.specs.Trial.{trial_in};
ghost use Rattle.log_order.specs.steps.Masks.{Small, Ranked, Named, lacks, late_in, cross_in, bar_in};

use format::Row;
use sets::{SLOTS, least};
use tables::{ACCESSES, COLUMNS, ROW_CELLS, ROWS};

// What 32 bits hold at most.
const LONGEST: usize = u32::MAX as usize;

// What is wrong with a list. A place is an index in the list.
#[derive(Clone, Copy)]
pub enum Fault {
    // its length, as far as 32 bits hold it
    WrongLength(u32),
    // the first place with a number out of range or repeated
    BadNumber(u8),
    // the first place whose event comes before one that happens before it
    TooEarly(u8),
    // the first row's reader and writer, the lowest V between them, and the row's address
    Barred(u8, u8, u8, u8),
}

// The first place with a number out of range or repeated.
fn bad(m: usize, list: &[u8]) -> Option<usize>
    requires { m ≤ slots }
    ensures { result ≡ first_some (bad_at m list.now) (length list.now) }
{
    let mut s = 0;
    for j in 0..list.len() {
        let x = list[j] as usize;
        if m <= x {
            return Some(j);
        }
        if sets::has(s, x) {
            return Some(j);
        }
        s = sets::with(s, x);
    }
    None
}

// For each number of the list the set of those that stand before it.
fn note(list: &[u8], earlier: &mut [u32])
    requires { Small list.now × (length earlier.old ≡ slots) × Ranked list.now 0 earlier.old }
    ensures { Ranked list.now (length list.now) earlier.new }
{
    let mut s = 0;
    for number in list {
        let x = *number as usize;
        earlier[x] |= s;
        s = sets::with(s, x);
    }
}

// Whether some member of a is none of b.
fn lacks(a: u32, b: u32) -> bool
    ensures { result ≡ lacks a b }
{
    !sets::subset(a, b)
}

// The first place whose event comes before one of all that happens before it.
fn early(all: u32, pred: &[u32; SLOTS], list: &[u8], earlier: &[u32; SLOTS]) -> Option<usize>
    ensures { result ≡ first_some (late_in all pred.now earlier.now list.now) (length list.now) }
{
    list.iter().position(|number| {
        let x = *number as usize % SLOTS;
        lacks(pred[x] & all, sets::with(earlier[x], x))
    })
}

// The least member of a set that w stands before.
fn behind(earlier: &[u32; SLOTS], m: u32, w: usize) -> Option<usize>
    ensures { result ≡ first_some (λ (v : ℕ). mem m v and mem (get_or earlier.now v 0) (w % slots)) slots }
{
    for v in sets::members(m) {
        if sets::has(earlier[v], w) {
            return Some(v);
        }
    }
    None
}

// The least event that a row bars, and that stands after its writer and before its reader: what a row bars is mostly nothing.
fn cross(
    t: &[u8; COLUMNS],
    eq: &[u32; ACCESSES],
    succ: &[u32; SLOTS],
    pred: &[u32; SLOTS],
    earlier: &[u32; SLOTS],
    r: Row,
) -> Option<usize>
    ensures { result ≡ first_some (cross_in t.now eq.now succ.now pred.now earlier.now r) slots }
{
    let barred = bars::of_row(t, eq, succ, pred, r);
    let before = earlier[r.reader as usize % SLOTS];
    behind(earlier, barred & before, r.writer as usize)
}

// What the first row that has one says, and its lowest.
fn barred(
    m: usize,
    t: &[u8; COLUMNS],
    succ: &[u32; SLOTS],
    pred: &[u32; SLOTS],
    earlier: &[u32; SLOTS],
    q: &[u8; ROW_CELLS],
    n: usize,
) -> Result<(), Fault>
    ensures { result ≡ said_of (bar_in (min m slots) t.now succ.now pred.now earlier.now q.now (min n row_room)) }
{
    let mut eq = [0u32; ACCESSES];
    alike::equals(t, m, &mut eq);
    for j in 0..least(n, ROWS) {
        let r = rows::row(q, j);
        if let Some(v) = cross(t, &eq, succ, pred, earlier, r) {
            return Err(Fault::Barred(r.reader, r.writer, v as u8, r.address));
        }
    }
    Ok(())
}

// What is said of a list that names each of m events once: too early, barred, or accepted.
fn ordered(
    m: usize,
    t: &[u8; COLUMNS],
    succ: &[u32; SLOTS],
    pred: &[u32; SLOTS],
    q: &[u8; ROW_CELLS],
    n: usize,
    list: &[u8],
) -> Result<(), Fault>
    requires { Named m list.now }
    ensures { result ≡ said_of (early_fault (trial_in m t.now succ.now pred.now q.now (min n row_room)) list.now else bar_fault (trial_in m t.now succ.now pred.now q.now (min n row_room)) list.now) }
{
    let mut earlier = [0u32; SLOTS];
    note(list, &mut earlier);
    if let Some(i) = early(sets::full(m), pred, list, &earlier) {
        return Err(Fault::TooEarly(i as u8));
    }
    barred(m, t, succ, pred, &earlier, q, n)
}

// Whether a list names each of so many events once, in an order that the tables allow; else its first fault.
pub fn check(
    events: usize,
    t: &[u8; COLUMNS],
    succ: &[u32; SLOTS],
    pred: &[u32; SLOTS],
    q: &[u8; ROW_CELLS],
    n: usize,
    list: &[u8],
) -> Result<(), Fault>
    ensures { result ≡ said_of (list_fault (trial_in (min events slots) t.now succ.now pred.now q.now (min n row_room)) list.now) }
{
    let m = least(events, SLOTS);
    let length = list.len();
    if length != m {
        return Err(Fault::WrongLength(least(length, LONGEST) as u32));
    }
    if let Some(i) = bad(m, list) {
        return Err(Fault::BadNumber(i as u8));
    }
    ordered(m, t, succ, pred, q, n, list)
}
