// The judge: a sheet, a lent scratch and a lent order buffer become an answer. What a whole sheet breaks or not is weighed by crate `weigh`.
#![tactic(auto)]

ghost use Rattle.std.specs.Prelude.{List, ℕ, replicate};
ghost use Rattle.tables.specs.Tables.{columns, row_cells};
ghost use Rattle.sheet.specs.Filled.{FilledWhole};
ghost use Rattle.model.specs.Judged.{Judged};

use answer::Answer;
use entries::Counts;
use sets::SLOTS;
use tables::{COLUMNS, ROW_CELLS};

// A whole sheet and its tables: refused where a buffer is too short, else judged.
fn admit(
    s: &[u8],
    x: Counts,
    t: &[u8; COLUMNS],
    q: &[u8; ROW_CELLS],
    scratch: &mut [u8],
    order: &mut [u8],
) -> Answer
    requires { (at : List ℕ) × FilledWhole s.now x at (replicate columns 0) t.now (replicate row_cells 0) q.now }
    ensures { Judged s.now scratch.old order.old result scratch.new order.new }
{
    let n = (x.events - x.inits) as usize;
    let need = marks::needed(n);
    if scratch.len() < need {
        return Answer::Refused(12, 0);
    }
    if order.len() < x.events as usize {
        return Answer::Refused(13, 0);
    }
    weigh::weigh(s, x, t, q, need, scratch, order)
}

// Judges a sheet. The scratch and the order buffer are lent; what the scratch holds on entry does not matter.
pub fn judge(s: &[u8], scratch: &mut [u8], order: &mut [u8]) -> Answer
    ensures { Judged s.now scratch.old order.old result scratch.new order.new }
{
    let mut at = [0u16; SLOTS];
    let mut t = [0u8; COLUMNS];
    let mut q = [0u8; ROW_CELLS];
    match sheet::reader::fill(s, &mut at, &mut t, &mut q) {
        Ok(x) => admit(s, x, &t, &q, scratch, order),
        Err(r) => Answer::Refused(r.fault.number(), r.place),
    }
}
