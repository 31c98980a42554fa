// Bars by masks: at v * 32 + w of the bars stands the mask of the readers R with a bar (R, W, V). The sets of equal ranges come from crate `alike`.
// No function has a `requires`.
#![tactic(auto)]

ghost use Rattle.std.specs.Prelude.{◌≡◌, ℕ, ◌%◌, min};
ghost use Rattle.basis.specs.Test.{◌and◌, non};
ghost use Rattle.sets.specs.Mask.{slots, mem};
ghost use Rattle.tables.specs.Tables.{row_room};
ghost use Rattle.bars.specs.Listed.{gone_in};
ghost use Rattle.bars.specs.steps.Covered.{covered_in};
ghost use Rattle.bars.specs.Bars.{reasons_in, mask_in, bars_in, filled_in};

use cells::spread;
use format::{Row, Shape};
use sets::{SLOTS, least};
use tables::{ACCESSES, COLUMNS, ROW_CELLS, ROWS};

// How many entries a list has room for.
pub const LIST: usize = 32;

// (a), (b) and (c) together, of the reader's access a and the writer's b.
fn reasons(a: Shape, b: Shape, as_a: u32, as_b: u32, wr: bool, before: u32, after: u32) -> u32
    ensures { result ≡ reasons_in a b as_a as_b wr before after }
{
    let x = sets::only(ranges::both_sc(b, a), as_a);
    let y = sets::only(wr & access::sc(b), as_b & before);
    let z = sets::only(wr & access::sc(a), as_a & after);
    x | (y | z)
}

// The events that a row bars between its writer and its reader; eq has the sets of equal ranges.
pub fn of_row(
    t: &[u8; COLUMNS],
    eq: &[u32; ACCESSES],
    succ: &[u32; SLOTS],
    pred: &[u32; SLOTS],
    r: Row,
) -> u32
    ensures { result ≡ mask_in t.now eq.now succ.now pred.now r }
{
    let reader = r.reader as usize % SLOTS;
    let writer = r.writer as usize % SLOTS;
    let i = tables::slot_at(t, reader, r.address);
    let j = tables::slot_at(t, writer, r.address);
    let after = succ[writer];
    let m = reasons(
        tables::shape(t, i),
        tables::shape(t, j),
        eq[i],
        eq[j],
        sets::has(after, reader),
        pred[reader],
        after,
    );
    sets::without(sets::without(m, reader), writer)
}

// Do the first accesses of a row's two events cover its byte?
pub fn covered(t: &[u8; COLUMNS], r: Row) -> bool
    ensures { result ≡ covered_in t.now r }
{
    let a = tables::shape(t, 2 * (r.reader as usize % SLOTS));
    let b = tables::shape(t, 2 * (r.writer as usize % SLOTS));
    ranges::covers(a, r.address) & ranges::covers(b, r.address)
}

// Adds the bars of the first n rows.
fn add(
    t: &[u8; COLUMNS],
    eq: &[u32; ACCESSES],
    succ: &[u32; SLOTS],
    pred: &[u32; SLOTS],
    q: &[u8; ROW_CELLS],
    n: usize,
    bars: &mut [u32],
)
    ensures { bars.new ≡ bars_in t.now eq.now succ.now pred.now q.now (min n row_room) bars.old }
{
    let m = least(n, ROWS);
    for j in 0..m {
        let r = rows::row(q, j);
        let barred = of_row(t, eq, succ, pred, r);
        spread(bars, barred, r.writer as usize, r.reader as usize);
    }
}

// The members of the set m, but for those that happen before w, where w is no init.
pub fn late(k: usize, pred: &[u32; SLOTS], w: usize, m: u32) -> u32
    ensures { (v : ℕ) → mem result v ≡ (mem m v and non (gone_in k pred.now (w % slots) v)) }
{
    let i = w % SLOTS;
    m & !sets::only(k <= i, pred[i])
}

// All bars of the tables' first events and rows, besides those that there are.
pub fn fill(
    t: &[u8; COLUMNS],
    events: usize,
    succ: &[u32; SLOTS],
    pred: &[u32; SLOTS],
    q: &[u8; ROW_CELLS],
    rows: usize,
    bars: &mut [u32],
)
    ensures { bars.new ≡ filled_in t.now (min events slots) succ.now pred.now q.now (min rows row_room) bars.old }
{
    let mut eq = [0u32; ACCESSES];
    alike::equals(t, events, &mut eq);
    add(t, &eq, succ, pred, q, rows, bars);
}
