// The last step over tables, where no rule of 21 to 25 is broken: the bars, the search, and the unsettled pair. The first order, or 26. Crate `weigh`
// puts the two functions together, or takes a list of bars.
#![tactic(auto)]

ghost use Rattle.std.specs.Prelude.{◌≡◌, min};
ghost use Rattle.sets.specs.Mask.{slots};
ghost use Rattle.settle.specs.Settle.{settled_in};
ghost use Rattle.orders.specs.Answer.{Answered};
ghost use Rattle.arrange.specs.Arranged.{bars_of, said_of};

use answer::{Answer, Names};
use gather::PAIRS;
use sets::SLOTS;
use tables::{COLUMNS, ROW_CELLS};

// Whether there is an order, and the first one, by the table of all bars; it goes to the front of the order buffer.
pub fn by_table(
    inits: usize,
    events: usize,
    rows: usize,
    t: &[u8; COLUMNS],
    q: &[u8; ROW_CELLS],
    succ: &[u32; SLOTS],
    pred: &[u32; SLOTS],
    scratch: &mut [u8],
    order: &mut [u8],
) -> bool
    ensures { Answered inits events pred.now (bars_of t.now events succ.now pred.now q.now rows) scratch.old order.old result scratch.new order.new }
{
    let mut bars = [0u32; PAIRS];
    bars::fill(t, events, succ, pred, q, rows, &mut bars);
    first_order::first(inits, events, pred, &bars, scratch, order)
}

// What is said where an order was found or not: the unsettled pair, or 26.
pub fn said(found: bool, t: &[u8; COLUMNS], succ: &[u32; SLOTS], events: usize) -> Answer
    ensures { result ≡ said_of found (settled_in t.now succ.now (min events slots)) }
{
    if !found {
        return Answer::Broken(26, Names::Nobody);
    }
    let settled = settle::settle(t, succ, events);
    Answer::Consistent(settled)
}
