// Tables, weighed: crate `prepare` makes happens-before, tries the rules 21 to 25 and lists the bars, and where no rule is broken the last step follows.
// Total: nothing is asked of the sheet, the counts, the tables or the buffers.
#![tactic(auto)]

ghost use Rattle.std.specs.Prelude.{◌≡◌, ℕ, min, Some};
ghost use Rattle.sets.specs.Mask.{slots};
ghost use Rattle.tables.specs.Tables.{row_room};
ghost use Rattle.alike.specs.Ranges.{equals_in};
ghost use Rattle.bars.specs.Listed.{Listed};
ghost use Rattle.orders.specs.Answer.{Answered};
ghost use Rattle.arrange.specs.Arranged.{bars_of};
ghost use Rattle.weigh.specs.Weighed.{Weighed};

use answer::Answer;
use bars::LIST;
use entries::Counts;
use sets::SLOTS;
use tables::{COLUMNS, ROW_CELLS};

// Whether there is an order, and the first one: by the list of bars where it has all, which is mostly little. A full list may lack some.
fn seek(
    inits: usize,
    events: usize,
    rows: usize,
    t: &[u8; COLUMNS],
    q: &[u8; ROW_CELLS],
    succ: &[u32; SLOTS],
    pred: &[u32; SLOTS],
    between: &[u32; LIST],
    readers: &[u8; LIST],
    writers: &[u8; LIST],
    listed: Option<usize>,
    scratch: &mut [u8],
    order: &mut [u8],
) -> bool
    requires { (count : ℕ) → listed ≡ Some count → Listed t.now (equals_in t.now (min events slots)) succ.now pred.now q.now inits (min rows row_room) count between.now readers.now writers.now }
    ensures { Answered inits events pred.now (bars_of t.now events succ.now pred.now q.now rows) scratch.old order.old result scratch.new order.new }
{
    if let Some(count) = listed {
        if count < LIST {
            return first_order::first_listed(
                inits, events, pred, between, readers, writers, count, scratch, order,
            );
        }
    }
    arrange::by_table(inits, events, rows, t, q, succ, pred, scratch, order)
}

// The answer on the tables of accesses and rows, and the sheet's pairs; where a rule is broken, the first `need` bytes of the scratch are cleared.
pub fn weigh(
    s: &[u8],
    x: Counts,
    t: &[u8; COLUMNS],
    q: &[u8; ROW_CELLS],
    need: usize,
    scratch: &mut [u8],
    order: &mut [u8],
) -> Answer
    ensures { Weighed s.now x t.now q.now need scratch.old order.old result scratch.new order.new }
{
    let inits = x.inits as usize;
    let events = x.events as usize;
    let rows = x.rows as usize;
    let mut succ = [0u32; SLOTS];
    let mut pred = [0u32; SLOTS];
    let mut between = [0u32; LIST];
    let mut readers = [0u8; LIST];
    let mut writers = [0u8; LIST];
    let ready = prepare::ready(
        s,
        x,
        t,
        q,
        &mut succ,
        &mut pred,
        &mut between,
        &mut readers,
        &mut writers,
    );
    match ready {
        Err(broken) => {
            marks::clear(scratch, need);
            Answer::Broken(broken.number, broken.names)
        }
        Ok(listed) => {
            let found = seek(
                inits, events, rows, t, q, &succ, &pred, &between, &readers, &writers, listed,
                scratch, order,
            );
            // its only caller, so that the compiler puts it in place
            arrange::said(found, t, &succ, events)
        }
    }
}
