// The judge's steps over tables under the C calling convention, two and two, for tests and benchmarks. No function has a `requires`; tables are arrays,
// so that their lengths are fixed.
#![tactic(auto)]

ghost use Rattle.steps_c.specs.Exported.{StepsRuled, StepsBarred};

use answer::Answer;
use sets::SLOTS;
use tables::{COLUMNS, PAIR_CELLS, ROW_CELLS};

// Happens-before by rows and by columns, added to what the masks hold, and the first broken rule as a word; 0 where all are kept.
#[unsafe(no_mangle)]
pub extern "C" fn steps_rule(
    t: &[u8; COLUMNS],
    events: usize,
    q: &[u8; ROW_CELLS],
    rows: usize,
    p: &[u8; PAIR_CELLS],
    pairs: usize,
    succ: &mut [u32; SLOTS],
    pred: &mut [u32; SLOTS],
) -> u64
    ensures { StepsRuled t.now events q.now rows p.now pairs succ.old pred.old result succ.new pred.new }
{
    before::fill(t, events, q, rows, p, pairs, succ, pred);
    let rule = rules::first_broken(t, events, succ, pred, q, rows);
    match rule {
        Ok(()) => 0,
        Err(broken) => answer::pack(Answer::Broken(broken.number, broken.names)),
    }
}

// The bars, added to what the masks hold, and orderly or the lowest unsettled pair, as the word of a consistent sheet's answer.
#[unsafe(no_mangle)]
pub extern "C" fn steps_bars(
    t: &[u8; COLUMNS],
    events: usize,
    succ: &[u32; SLOTS],
    pred: &[u32; SLOTS],
    q: &[u8; ROW_CELLS],
    rows: usize,
    bars: &mut [u32],
) -> u64
    ensures { StepsBarred t.now events succ.now pred.now q.now rows bars.old result bars.new }
{
    bars::fill(t, events, succ, pred, q, rows, bars);
    let settled = settle::settle(t, succ, events);
    answer::pack(Answer::Consistent(settled))
}
