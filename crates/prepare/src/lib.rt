// What is found before an order is sought or a list is held against the sheet: happens-before is made of tables, and the rules 21 to 25 are tried, 21
// first, which asks for none; mostly none is broken, and one pass over the rows tells so and lists the bars by the way. Total: nothing is asked of the
// sheet, the counts, the places or the tables. The judge calls `ready`, the check of a list `rule`: each has one caller, so that the compiler puts it
// in place there.
#![tactic(auto)]

ghost use Rattle.std.specs.Prelude.{min, replicate};
ghost use Rattle.sets.specs.Mask.{slots};
ghost use Rattle.tables.specs.Tables.{row_room, pair_room, pair_cells};
ghost use Rattle.lay.specs.Lay.{pairs_put};
ghost use Rattle.before.specs.Before.{ClosedSteps};
ghost use Rattle.prepare.specs.Prepared.{Ruled, Readied};

use answer::Breach;
use bars::LIST;
use entries::Counts;
use sets::SLOTS;
use tables::{COLUMNS, PAIR_CELLS, ROW_CELLS};

// Happens-before, by rows and by columns, of the tables and of the sheet's pairs.
fn order(
    s: &[u8],
    x: Counts,
    t: &[u8; COLUMNS],
    q: &[u8; ROW_CELLS],
    succ: &mut [u32; SLOTS],
    pred: &mut [u32; SLOTS],
)
    ensures { ClosedSteps t.now (min x.events slots) q.now (min x.rows row_room) (pairs_put s.now x (min x.pairs pair_room) (replicate pair_cells 0)) (min x.pairs pair_room) succ.old succ.new pred.old pred.new }
{
    let events = x.events as usize;
    let rows = x.rows as usize;
    let pairs = x.pairs as usize;
    let mut p = [0u8; PAIR_CELLS];
    lay::pairs(s, x, &mut p);
    before::fill(t, events, q, rows, &p, pairs, succ, pred);
}

// The first broken rule; where none is, happens-before by rows and by columns is left in what was lent, and where one pass over the rows told so a list
// of bars: how many entries it has.
pub fn ready(
    s: &[u8],
    x: Counts,
    t: &[u8; COLUMNS],
    q: &[u8; ROW_CELLS],
    succ: &mut [u32; SLOTS],
    pred: &mut [u32; SLOTS],
    between: &mut [u32; LIST],
    readers: &mut [u8; LIST],
    writers: &mut [u8; LIST],
) -> Result<Option<usize>, Breach>
    ensures { Readied s.now x t.now q.now succ.old succ.new pred.old pred.new result between.new readers.new writers.new }
{
    let inits = x.inits as usize;
    let events = x.events as usize;
    let rows = x.rows as usize;
    rules::bytes(q, rows)?;
    order(s, x, t, q, succ, pred);
    let listed = sift::sift(
        inits, t, events, succ, pred, q, rows, between, readers, writers,
    );
    if let Some(count) = listed {
        return Ok(Some(count));
    }
    rules::rest(t, events, succ, pred, q, rows)?;
    Ok(None)
}

// The same without a list. Where none is wanted the rules one after another take less time than the pass.
pub fn rule(
    s: &[u8],
    x: Counts,
    t: &[u8; COLUMNS],
    q: &[u8; ROW_CELLS],
    succ: &mut [u32; SLOTS],
    pred: &mut [u32; SLOTS],
) -> Result<(), Breach>
    ensures { Ruled s.now x t.now q.now succ.old succ.new pred.old pred.new result }
{
    let n = x.events as usize;
    let m = x.rows as usize;
    rules::bytes(q, m)?;
    order(s, x, t, q, succ, pred);
    rules::rest(t, n, succ, pred, q, m)
}
