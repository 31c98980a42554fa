// Happens-before over the tables: succ[e] is the mask of the events that e happens before, pred[d] of those that happen before d. Both grow a step at
// a time, and are closed after each. The public function has no `requires`.
#![tactic(auto)]

ghost use Rattle.std.specs.Prelude.{◌≡◌, cond, List, ℕ, ◌<◌, ◌≤◌, min, length};
ghost use Rattle.std.specs.Int.Bits.{bit_or};
ghost use Rattle.sets.specs.Mask.{slots, insert};
ghost use Rattle.cells.specs.Walk.{picked};
ghost use Rattle.cells.specs.Cells.{gaining};
ghost use Rattle.tables.specs.Tables.{row_room, pair_room};
ghost use Rattle.own.specs.Own.{met_in};
ghost use Rattle.own.specs.Lone.{Lone};
ghost use Rattle.before.specs.Before.{sync_in, sync_gains, row_steps_in, pair_steps_in, ClosedSteps};
ghost use Rattle.before.specs.steps.Once.{lone_prop};
ghost use Rattle.before.specs.steps.Linked.{Grew, Joined, Beyond, Merged, init_at, inits_in, Linking};

use cells::take;
use format::Row;
use sets::{SLOTS, least};
use tables::{COLUMNS, PAIR_CELLS, PAIRS, ROW_CELLS, ROWS};

// ---- which rows make a step

// Are the row's two accesses both sc with equal ranges?
fn syncs(t: &[u8; COLUMNS], r: Row) -> bool
    ensures { result ≡ sync_in t.now r }
{
    let w = tables::at(t, r.writer as usize, r.address);
    if !access::sc(w) {
        return false;
    }
    ranges::both_sc(w, tables::at(t, r.reader as usize, r.address))
}

// The same where no event has a second access. Without a jump: which rows synchronise is hard to foresee.
fn syncs_first(t: &[u8; COLUMNS], r: Row) -> bool
    requires { Lone t.now slots }
    ensures { result ≡ sync_in t.now r }
{
    let a = tables::shape(t, 2 * (r.writer as usize % SLOTS));
    let b = tables::shape(t, 2 * (r.reader as usize % SLOTS));
    ranges::both_sc(a, b) & ranges::covers(a, r.address)
}

// ---- what an event meets

// The other events below n that e meets, where no event has a second access.
fn met_first(t: &[u8; COLUMNS], n: usize, e: usize) -> u32
    requires { (n ≤ slots) × (e < slots) × Lone t.now slots }
    ensures { result ≡ picked n (met_in t.now e) }
{
    let a = tables::shape(t, 2 * e);
    let mut s = 0;
    for d in 0..n {
        s = take(s, d, ranges::overlap(a, tables::shape(t, 2 * d)));
    }
    sets::without(s, e)
}

// ---- which accesses are looked at

// How rows and events are asked about their accesses. Which way is picked once for a table, by the type.
trait Accesses {
    // The table that they stand in.
    ghost table: { Self → List ℕ };

    // That table.
    fn columns(&self) -> &[u8; COLUMNS]
        ensures { result.now ≡ table self.now };

    // Are the row's two accesses both sc with equal ranges?
    fn syncs(&self, r: Row) -> bool
        ensures { result ≡ sync_in (table self.now) r };

    // The other events below n that e meets.
    fn met(&self, n: usize, e: usize) -> u32
        requires { (n ≤ slots) × (e < slots) }
        ensures { result ≡ picked n (met_in (table self.now) e) };
}

// First accesses alone, where no event has a second one.
#[derive(Drop)]
struct Firsts<'a> {
    t: &'a [u8; COLUMNS],
    ghost lone: { Lone t.now slots } by { lone_prop t.now slots },
}

impl<'a> Accesses for Firsts<'a> {
    ghost table = { λ a. a.t.now };

    fn columns(&self) -> &[u8; COLUMNS] {
        self.t
    }

    fn syncs(&self, r: Row) -> bool {
        syncs_first(self.t, r)
    }

    fn met(&self, n: usize, e: usize) -> u32 {
        met_first(self.t, n, e)
    }
}

// All accesses.
#[derive(Drop)]
struct All<'a> {
    t: &'a [u8; COLUMNS],
}

impl<'a> Accesses for All<'a> {
    ghost table = { λ a. a.t.now };

    fn columns(&self) -> &[u8; COLUMNS] {
        self.t
    }

    fn syncs(&self, r: Row) -> bool {
        syncs(self.t, r)
    }

    fn met(&self, n: usize, e: usize) -> u32 {
        own::met(self.t, n, e)
    }
}

// ---- a step more, and what follows

// The set y, with x where a test passed.
fn gained(y: u32, test: bool, x: u32) -> u32
    ensures { result ≡ cond test (bit_or y x) y }
{
    if test { y | x } else { y }
}

// The masks at the members of the set m gain x. All places are looked at, or the first 12 or 24 where the members lie below, without a jump and by a
// fixed number, so that the machine takes several at once. By number, here and in `merge`: of what an adapter of `iter_mut` leaves the check knows nothing.
fn grow(masks: &mut [u32], m: u32, x: u32)
    requires { length masks.old ≡ slots }
    ensures { Grew m x masks.old masks.new }
{
    for e in 0..12usize {
        masks[e] = gained(masks[e], sets::has(m, e), x);
    }
    if m < 4096 {
        return;
    }
    for e in 12..24usize {
        masks[e] = gained(masks[e], sets::has(m, e), x);
    }
    if m < 16777216 {
        return;
    }
    for e in 24..SLOTS {
        masks[e] = gained(masks[e], sets::has(m, e), x);
    }
}

// a leads to all of d, and so does what leads to a.
fn join(a: usize, d: u32, succ: &mut [u32], cols: &mut [u32])
    requires { (a < slots) × (length succ.old ≡ slots) × (length cols.old ≡ slots) }
    ensures { Joined a d succ.old cols.old succ.new cols.new }
{
    let u = sets::with(cols[a], a);
    grow(succ, u, d);
    grow(cols, d, u);
}

// The members of x, and what they lead to. All places are looked at, or the first of them, as above.
// By number: the place is the member that is asked for, and an iterator over a part counts from 0; a `zip` with the places is no plainer.
fn beyond(x: u32, succ: &[u32]) -> u32
    requires { length succ.now ≡ slots }
    ensures { Beyond slots succ.now x result }
{
    let mut d = x;
    for k in 0..12usize {
        d = gained(d, sets::has(x, k), succ[k]);
    }
    if x < 4096 {
        return d;
    }
    for k in 12..24usize {
        d = gained(d, sets::has(x, k), succ[k]);
    }
    if x < 16777216 {
        return d;
    }
    for e in 24..SLOTS {
        d = gained(d, sets::has(x, e), succ[e]);
    }
    d
}

// The same of b alone; what it leads to counts where it lies below n.
fn from_one(n: usize, b: usize, succ: &[u32]) -> u32
    requires { (b < slots) × (length succ.now ≡ slots) }
    ensures { Beyond n succ.now (insert 0 b) result }
{
    if b < n {
        return sets::with(succ[b], b);
    }
    sets::with(0, b)
}

// The step from a to b, among n events. One that there is a way for already adds nothing.
fn step(n: usize, a: usize, b: usize, succ: &mut [u32], cols: &mut [u32])
    requires { (n ≤ slots) × (a < slots) × (b < slots) × (length succ.old ≡ slots) × (length cols.old ≡ slots) }
    ensures { Linking n (λ (l : List ℕ). gaining l a b) succ.old cols.old succ.new cols.new }
{
    if n <= a {
        succ[a] = sets::with(succ[a], b);
        return;
    }
    if sets::has(succ[a], b) {
        return;
    }
    let d = from_one(n, b, succ);
    join(a, d, succ, cols);
}

// ---- what inits, rows and pairs add

// An init leads to what it meets.
fn add_init<A: Accesses>(of: &A, n: usize, e: usize, succ: &mut [u32], cols: &mut [u32])
    requires { (n ≤ slots) × (e < n) × (length succ.old ≡ slots) × (length cols.old ≡ slots) }
    ensures { Linking n (init_at (A.table of.now) n e) succ.old cols.old succ.new cols.new }
{
    let init = tables::agent(of.columns(), e) == 0;
    if !init {
        return;
    }
    let d = beyond(of.met(n, e), succ);
    join(e, d, succ, cols);
}

fn add_inits<A: Accesses>(of: &A, n: usize, succ: &mut [u32], cols: &mut [u32])
    requires { (n ≤ slots) × (length succ.old ≡ slots) × (length cols.old ≡ slots) }
    ensures { Linking n (inits_in (A.table of.now) n n) succ.old cols.old succ.new cols.new }
{
    for e in 0..n {
        add_init(of, n, e, succ, cols);
    }
}

// The row's writer leads to its reader, where the two synchronise. One jump for all that adds nothing: a step that there is a way for does not.
fn add_row<A: Accesses>(of: &A, n: usize, r: Row, succ: &mut [u32], cols: &mut [u32])
    requires { (n ≤ slots) × (length succ.old ≡ slots) × (length cols.old ≡ slots) }
    ensures { Linking n (sync_gains (A.table of.now) r) succ.old cols.old succ.new cols.new }
{
    let a = r.writer as usize % SLOTS;
    let b = r.reader as usize % SLOTS;
    let adds = of.syncs(r) & !sets::has(succ[a], b);
    if !adds {
        return;
    }
    step(n, a, b, succ, cols);
}

// The steps of the first rows; they count up to the rows that have a place.
fn add_rows<A: Accesses>(
    of: &A,
    n: usize,
    q: &[u8; ROW_CELLS],
    rows: usize,
    succ: &mut [u32],
    cols: &mut [u32],
)
    requires { (n ≤ slots) × (length succ.old ≡ slots) × (length cols.old ≡ slots) }
    ensures { Linking n (row_steps_in (A.table of.now) q.now (min rows row_room)) succ.old cols.old succ.new cols.new }
{
    let m = least(rows, ROWS);
    for j in 0..m {
        add_row(of, n, rows::row(q, j), succ, cols);
    }
}

// What the inits add, and then the first rows.
fn add_seen<A: Accesses>(
    of: &A,
    n: usize,
    q: &[u8; ROW_CELLS],
    rows: usize,
    succ: &mut [u32],
    cols: &mut [u32],
)
    requires { (n ≤ slots) × (length succ.old ≡ slots) × (length cols.old ≡ slots) }
    ensures { Linking n (λ (l : List ℕ). row_steps_in (A.table of.now) q.now (min rows row_room) (inits_in (A.table of.now) n n l)) succ.old cols.old succ.new cols.new }
{
    add_inits(of, n, succ, cols);
    add_rows(of, n, q, rows, succ, cols);
}

// The steps of the first pairs, from the first of a pair to its second; they count up to the pairs that have a place.
fn add_pairs(n: usize, p: &[u8; PAIR_CELLS], pairs: usize, succ: &mut [u32], cols: &mut [u32])
    requires { (n ≤ slots) × (length succ.old ≡ slots) × (length cols.old ≡ slots) }
    ensures { Linking n (pair_steps_in p.now (min pairs pair_room)) succ.old cols.old succ.new cols.new }
{
    let m = least(pairs, PAIRS);
    for j in 0..m {
        let r = rows::pair(p, j);
        step(
            n,
            r.first as usize % SLOTS,
            r.second as usize % SLOTS,
            succ,
            cols,
        );
    }
}

// ---- the whole

// The masks gain what others have.
fn merge(masks: &mut [u32], others: &[u32])
    requires { (length masks.old ≡ slots) × (length others.now ≡ slots) }
    ensures { Merged masks.old others.now masks.new }
{
    for d in 0..SLOTS {
        masks[d] = masks[d] | others[d];
    }
}

// Happens-before, by rows and by columns: the agents' orders, which are closed, and then a step at a time, each with what follows from it.
pub fn fill(
    t: &[u8; COLUMNS],
    events: usize,
    q: &[u8; ROW_CELLS],
    rows: usize,
    p: &[u8; PAIR_CELLS],
    pairs: usize,
    succ: &mut [u32; SLOTS],
    pred: &mut [u32; SLOTS],
)
    ensures { ClosedSteps t.now (min events slots) q.now (min rows row_room) p.now (min pairs pair_room) succ.old succ.new pred.old pred.new }
{
    let n = least(events, SLOTS);
    let mut cols = [0u32; SLOTS];
    own::laters(t, n, succ, &mut cols);
    if own::lone(t) {
        add_seen(&Firsts { t }, n, q, rows, succ, &mut cols);
    } else {
        add_seen(&All { t }, n, q, rows, succ, &mut cols);
    }
    add_pairs(n, p, pairs, succ, &mut cols);
    merge(pred, &cols);
}
