// One pass over the rows where no rule of 22 to 25 is broken, which is mostly so: it notices whether something may be amiss, and lists the bars by
// the way. By first accesses alone: where an event has a second one, the answer is that something may be. No jump in the loops by what they find, but
// for one out of the pass.
#![tactic(auto)]

ghost use Rattle.std.specs.Prelude.{◌≡◌, true, List, ℕ, ◌%◌, ◌<◌, min, eqb, length, get_or, replicate};
ghost use Rattle.basis.specs.Test.{◌and◌, non};
ghost use Rattle.sets.specs.Mask.{slots, mem};
ghost use Rattle.cells.specs.Cells.{placing};
ghost use Rattle.tables.specs.Tables.{row_room};
ghost use Rattle.torn.specs.steps.Noticed.{Marks, Among};
ghost use Rattle.alike.specs.Ranges.{match};
ghost use Rattle.bars.specs.Listed.{list_room, gone_in};
ghost use Rattle.bars.specs.Bars.{reasons_in, mask_in};
ghost use Rattle.bars.specs.steps.Covered.{covered_in};
ghost use Rattle.bars.specs.steps.Entering.{Entering};
ghost use Rattle.rules.specs.Rules.{cyclic_in};
ghost use Rattle.sift.specs.Cover.{near_room, Covered};
ghost use Rattle.sift.specs.Clean.{stirs_in, whole_in, run_of, RowAmiss};
ghost use Rattle.sift.specs.Sieve.{Sieve};
ghost use Rattle.sift.specs.steps.Noted.{NotedIn};
ghost use Rattle.sift.specs.steps.Alikes.{Gained, Bare, Agrees};
ghost use Rattle.sift.specs.steps.Near.{Near};
ghost use Rattle.sift.specs.steps.Passed.{Passed};

use bars::LIST;
use format::{Row, Shape};
use sets::{SLOTS, least};
use tables::{COLUMNS, ROW_CELLS, ROWS};

// The flat bytes of which it is known who writes them; and eight more, so that an access that begins among them ends within.
const NEAR: usize = 64;

const BYTES: usize = 72;

// What first accesses are: sets of events. `far` has those of which more is to be known than the eight bytes from the start on, by their places among
// 64; `sc` those that write sc, `writers` those that write. `seconds` is 0 where no event has a second access.
#[derive(Clone, Copy)]
pub struct Noted {
    pub far: u32,
    pub sc: u32,
    pub writers: u32,
    pub seconds: u8,
}

// ---- by event

// What the first accesses of the events below n are, with their keys; n counts up to the slots, and so below.
fn note(t: &[u8; COLUMNS], n: usize, by: &mut [u32]) -> Noted
    ensures { NotedIn t.now (min n slots) by.old by.new result.far result.sc result.writers result.seconds }
{
    let m = least(n, SLOTS);
    let mut far = 0;
    let mut sc = 0;
    let mut writers = 0;
    let mut seconds = 0;
    for e in 0..m {
        let a = tables::shape(t, 2 * e);
        let b = tables::shape(t, 2 * e + 1);
        let w = access::writes(a);
        cells::place(by, e, alike::key(a));
        far = torn::join(far, e, (8 < a.width) | (63 < a.start));
        sc = torn::join(sc, e, access::sc(a) & w);
        writers = torn::join(writers, e, w);
        seconds = seconds | b.width;
    }
    Noted {
        far,
        sc,
        writers,
        seconds,
    }
}

// ---- equal ranges

// Each mask gains v where the key x stands; several masks at once. By number, as in crate `alike`.
fn gains(by: &[u32; SLOTS], x: u32, v: usize, eq: &mut [u32])
    requires { length eq.old ≡ slots }
    ensures { eq.new ≡ placing (match (λ (e : ℕ). eqb (get_or by.now e 0) x) (v % slots) eq.old) slots eq.old }
{
    for e in 0..SLOTS {
        eq[e] = cells::take(eq[e], v, by[e] == x);
    }
}

// For each event the events of a set whose key is its own.
fn alikes(by: &[u32; SLOTS], sc: u32, eq: &mut [u32])
    requires { eq.old ≡ replicate slots 0 }
    ensures { Gained by.now sc 0 eq.new }
{
    for v in sets::members(sc) {
        gains(by, by[v], v, eq);
    }
}

// ---- who writes a byte

// The masks of the bytes from k on, as many as the width says and at most eight, gain x.
fn cover(bytes: &mut [u32; BYTES], k: usize, width: u8, x: u32)
    requires { k < near_room }
    ensures { Covered k (min width 8) x bytes.old bytes.new }
{
    let w = least(width as usize, 8);
    for byte in &mut bytes[k..k + w] {
        *byte |= x;
    }
}

// The masks of the bytes that first accesses of a set of events cover gain these events.
fn near(t: &[u8; COLUMNS], writers: u32, bytes: &mut [u32; BYTES])
    ensures { Near t.now writers 0 bytes.old bytes.new }
{
    for v in sets::members(writers) {
        let a = tables::shape(t, 2 * v);
        cover(bytes, a.start as usize % NEAR, a.width, sets::with(0, v));
    }
}

// ---- what may be amiss

// Does an event happen before itself?
fn cyclic(succ: &[u32; SLOTS]) -> u32
    ensures { Marks result (Among slots (λ (e : ℕ). cyclic_in succ.now e ≡ true)) }
{
    let mut c = 0;
    for e in 0..SLOTS {
        c = c | (succ[e] & sets::with(0, e));
    }
    c
}

// Are the first accesses of a row's two events tear-free, with equal ranges?
fn whole(t: &[u8; COLUMNS], r: Row) -> bool
    ensures { result ≡ whole_in t.now r }
{
    let a = tables::shape(t, 2 * (r.reader as usize % SLOTS));
    let b = tables::shape(t, 2 * (r.writer as usize % SLOTS));
    access::tear_free(a) & (access::tear_free(b) & ranges::equal(a, b))
}

// The writers of the whole rows of one reader, with the row r: m has those of the rows before it, whose reader is `last`.
fn run(t: &[u8; COLUMNS], r: Row, last: u8, m: u32) -> u32
    ensures { result ≡ run_of t.now r last m }
{
    torn::join(
        sets::only(r.reader == last, m),
        r.writer as usize,
        whole(t, r),
    )
}

// Not 0 where 23 is broken at a row, or where an event that lies between its two and may write its byte may break 24.
fn stirs(r: Row, succ: &[u32; SLOTS], pred: &[u32; SLOTS], far: u32, bytes: &[u32; BYTES]) -> u32
    ensures { result ≡ stirs_in succ.now pred.now far bytes.now r }
{
    let e = r.reader as usize % SLOTS;
    let w = r.writer as usize % SLOTS;
    let may = far | bytes[r.address as usize % NEAR];
    sets::only(sets::has(succ[e], w), 1) | (succ[w] & pred[e] & may)
}

// What may be amiss with a row: 23, 24; a byte of which it is not known who writes it; a byte that first accesses do not cover; a reader below the last one; 25, two writers of its reader.
fn amiss(
    t: &[u8; COLUMNS],
    r: Row,
    last: u8,
    m: u32,
    succ: &[u32; SLOTS],
    pred: &[u32; SLOTS],
    far: u32,
    bytes: &[u32; BYTES],
) -> u32
    ensures { Marks result (RowAmiss t.now succ.now pred.now far bytes.now r last m) }
{
    let stirred = stirs(r, succ, pred, far, bytes);
    let beyond = sets::only(63 < r.address, 1);
    let bare = sets::only(!bars::covered(t, r), 1);
    let falls = sets::only(r.reader < last, 1);
    stirred | (beyond | (bare | (falls | torn::others(m))))
}

// ---- bars

// (a), (b) and (c) together, of the reader's access a and the writer's b, where no event is as an access that is not sc.
fn reasons(a: Shape, b: Shape, as_a: u32, as_b: u32, wr: bool, before: u32, after: u32) -> u32
    ensures { Bare a as_a → Bare b as_b → result ≡ reasons_in a b as_a as_b wr before after }
{
    let x = sets::only(access::sc(b) & ranges::equal(b, a), as_a);
    x | sets::only(wr, (as_b & before) | (as_a & after))
}

// The events that a row lists, by the sets of equal ranges of events, where first accesses cover its byte.
fn barred(
    k: usize,
    t: &[u8; COLUMNS],
    eq: &[u32; SLOTS],
    succ: &[u32; SLOTS],
    pred: &[u32; SLOTS],
    r: Row,
) -> u32
    ensures { covered_in t.now r ≡ true → (eqs : List ℕ) → Agrees t.now eq.now eqs → (v : ℕ) → mem result v ≡ (mem (mask_in t.now eqs succ.now pred.now r) v and non (gone_in k pred.now (r.writer % slots) v)) }
{
    let reader = r.reader as usize % SLOTS;
    let writer = r.writer as usize % SLOTS;
    let after = succ[writer];
    let m = reasons(
        tables::shape(t, 2 * reader),
        tables::shape(t, 2 * writer),
        eq[reader],
        eq[writer],
        sets::has(after, reader),
        pred[reader],
        after,
    );
    bars::late(
        k,
        pred,
        writer,
        sets::without(sets::without(m, reader), writer),
    )
}

// An entry for the row r, with the set b, where there is room: the number of entries then. None is counted for an empty set, and none where `again`
// says that there is one.
fn enter(
    n: usize,
    b: u32,
    r: Row,
    again: bool,
    between: &mut [u32],
    readers: &mut [u8],
    writers: &mut [u8],
) -> usize
    requires { (length between.old ≡ list_room) × (length readers.old ≡ list_room) × (length writers.old ≡ list_room) }
    ensures { Entering n b r again result between.old readers.old writers.old between.new readers.new writers.new }
{
    if LIST <= n {
        return n;
    }
    between[n] = b;
    readers[n] = r.reader;
    writers[n] = r.writer;
    n + ((b != 0) & !again) as usize
}

// ---- the pass

// The first rows, where none is amiss: how many entries of what they bar are listed. It ends at the first that is.
fn pass(
    k: usize,
    t: &[u8; COLUMNS],
    eq: &[u32; SLOTS],
    far: u32,
    bytes: &[u32; BYTES],
    succ: &[u32; SLOTS],
    pred: &[u32; SLOTS],
    q: &[u8; ROW_CELLS],
    rows: usize,
    between: &mut [u32],
    readers: &mut [u8],
    writers: &mut [u8],
) -> Option<usize>
    requires { (length between.old ≡ list_room) × (length readers.old ≡ list_room) × (length writers.old ≡ list_room) }
    ensures { Passed t.now eq.now far bytes.now succ.now pred.now q.now k (min rows row_room) result between.new readers.new writers.new }
{
    let m = least(rows, ROWS);
    let mut n: usize = 0;
    let mut last_reader: u8 = 0;
    let mut last_writer: u8 = 0;
    let mut last: u32 = 0;
    let mut wholes: u32 = 0;
    for j in 0..m {
        let r = rows::row(q, j);
        wholes = run(t, r, last_reader, wholes);
        let found = amiss(t, r, last_reader, wholes, succ, pred, far, bytes);
        if found != 0 {
            return None;
        }
        let b = barred(k, t, eq, succ, pred, r);
        let again = (r.reader == last_reader) & ((r.writer == last_writer) & (b == last));
        n = enter(n, b, r, again, between, readers, writers);
        last_reader = r.reader;
        last_writer = r.writer;
        last = b;
    }
    Some(n)
}

// Where nothing of 22 to 25 is amiss, a list of the bars (Listed, crate bars): how many entries it has.
pub fn sift(
    inits: usize,
    t: &[u8; COLUMNS],
    events: usize,
    succ: &[u32; SLOTS],
    pred: &[u32; SLOTS],
    q: &[u8; ROW_CELLS],
    rows: usize,
    between: &mut [u32; LIST],
    readers: &mut [u8; LIST],
    writers: &mut [u8; LIST],
) -> Option<usize>
    ensures { Sieve t.now (min events slots) succ.now pred.now q.now inits (min rows row_room) result between.new readers.new writers.new }
{
    let mut by = [0u32; SLOTS];
    let seen = note(t, events, &mut by);
    let mut eq = [0u32; SLOTS];
    alikes(&by, seen.sc, &mut eq);
    let mut bytes = [0u32; BYTES];
    near(t, seen.writers, &mut bytes);
    let far = seen.far | !sets::full(events);
    let listed = pass(
        inits, t, &eq, far, &bytes, succ, pred, q, rows, between, readers, writers,
    );
    let clean = (seen.seconds == 0) & (cyclic(succ) == 0);
    if clean { listed } else { None }
}
