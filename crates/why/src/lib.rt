// Why no order exists (02 §8): of a sheet broken by 26 the bars without any one of which some order exists; of every other sheet the judge's own answer.
// The scratch and the buffer for the bars are lent; there is no order buffer.
#![tactic(auto)]

ghost use Rattle.std.specs.Prelude.{◌≡◌, List, ℕ, ◌-◌, ◌≤◌, min, length, replicate};
ghost use Rattle.sets.specs.Mask.{slots};
ghost use Rattle.marks.specs.Table.{bytes_for};
ghost use Rattle.tables.specs.Tables.{columns, row_cells};
ghost use Rattle.settle.specs.Settle.{settled_in};
ghost use Rattle.arrange.specs.Arranged.{bars_of};
ghost use Rattle.sheet.specs.Filled.{FilledWhole};
ghost use Rattle.kept.specs.Keeps.{Keeps};
ghost use Rattle.why.specs.Explained.{Explained};
ghost use Rattle.why.specs.Word.{settled_word, why_word};
ghost use Rattle.why.specs.steps.Told.{told_of};

use answer::{Four, Names, Settled};
use entries::Counts;
use gather::PAIRS;
use kept::Finding;
use sets::SLOTS;
use tables::{COLUMNS, ROW_CELLS};

#[derive(Clone, Copy)]
pub enum Explanation {
    // the refusal's number, and the place; 16 is `Small`
    Refused(u8, u32),
    // the rule's number, 21 to 25, and whom it names
    Broken(u8, Names),
    Consistent(Settled),
    // 26: how many bars are kept; they stand in the lent buffer, three bytes each
    Kept(u32),
    // 26, and the buffer can't hold the kept list: refused 16 at 0
    Small,
}

// The bars of the tables, and those of them that are kept.
fn seek(
    inits: usize,
    events: usize,
    rows: usize,
    t: &[u8; COLUMNS],
    q: &[u8; ROW_CELLS],
    succ: &[u32; SLOTS],
    pred: &[u32; SLOTS],
    scratch: &mut [u8],
    out: &mut [u8],
) -> Finding
    ensures { Keeps inits events pred.now (bars_of t.now events succ.now pred.now q.now rows) scratch.old out.old result scratch.new out.new }
{
    let mut bars = [0u32; PAIRS];
    bars::fill(t, events, succ, pred, q, rows, &mut bars);
    kept::keep(inits, events, pred, &bars, scratch, out)
}

// What is said of it: where there is an order, the unsettled pair.
fn told(found: Finding, t: &[u8; COLUMNS], succ: &[u32; SLOTS], events: usize) -> Explanation
    ensures { result ≡ told_of found (settled_in t.now succ.now (min events slots)) }
{
    match found {
        Finding::Order => Explanation::Consistent(settle::settle(t, succ, events)),
        Finding::Bars(n) => Explanation::Kept(n),
        Finding::Small => Explanation::Small,
        Finding::Unfit => Explanation::Refused(12, 0),
    }
}

// A whole sheet and its tables, with scratch enough: the first broken rule of 21 to 25, or what is found of its bars.
fn weigh(
    s: &[u8],
    x: Counts,
    t: &[u8; COLUMNS],
    q: &[u8; ROW_CELLS],
    need: usize,
    scratch: &mut [u8],
    out: &mut [u8],
) -> Explanation
    requires { ((at : List ℕ) × FilledWhole s.now x at (replicate columns 0) t.now (replicate row_cells 0) q.now) × (need ≡ bytes_for (min (x.events - x.inits) slots)) × (need ≤ length scratch.old) }
    ensures { Explained s.now scratch.old out.old result scratch.new out.new }
{
    let inits = x.inits as usize;
    let events = x.events as usize;
    let rows = x.rows as usize;
    let mut succ = [0u32; SLOTS];
    let mut pred = [0u32; SLOTS];
    let rule = prepare::rule(s, x, t, q, &mut succ, &mut pred);
    match rule {
        Err(broken) => {
            marks::clear(scratch, need);
            Explanation::Broken(broken.number, broken.names)
        }
        Ok(()) => {
            let found = seek(inits, events, rows, t, q, &succ, &pred, scratch, out);
            told(found, t, &succ, events)
        }
    }
}

// A whole sheet and its tables: refused where the scratch is too short.
fn admit(
    s: &[u8],
    x: Counts,
    t: &[u8; COLUMNS],
    q: &[u8; ROW_CELLS],
    scratch: &mut [u8],
    out: &mut [u8],
) -> Explanation
    requires { (at : List ℕ) × FilledWhole s.now x at (replicate columns 0) t.now (replicate row_cells 0) q.now }
    ensures { Explained s.now scratch.old out.old result scratch.new out.new }
{
    let n = (x.events - x.inits) as usize;
    let need = marks::needed(n);
    if scratch.len() < need {
        return Explanation::Refused(12, 0);
    }
    weigh(s, x, t, q, need, scratch, out)
}

// Explains a sheet. What the scratch holds on entry does not matter.
pub fn explain(s: &[u8], scratch: &mut [u8], out: &mut [u8]) -> Explanation
    ensures { Explained s.now scratch.old out.old result scratch.new out.new }
{
    let mut at = [0u16; SLOTS];
    let mut t = [0u8; COLUMNS];
    let mut q = [0u8; ROW_CELLS];
    match sheet::reader::fill(s, &mut at, &mut t, &mut q) {
        Ok(x) => admit(s, x, &t, &q, scratch, out),
        Err(r) => Explanation::Refused(r.fault.number(), r.place),
    }
}

// 0 orderly, 1 unsettled with the pair
fn settled_word(s: Settled) -> u64
    ensures { result ≡ settled_word s }
{
    match s {
        Settled::Orderly => answer::word(3, 0, answer::four_bytes(Four(None, None, None, None))),
        Settled::Unsettled(e, d) => answer::word(
            3,
            1,
            answer::four_bytes(Four(Some(e), Some(d), None, None)),
        ),
    }
}

// The number that the suite's harness gets. What the judge says has the judge's own word; it is made here of its parts, as `answer::pack`, with one
// caller, is put in place in the judge.
pub fn pack(x: Explanation) -> u64
    ensures { result ≡ why_word x }
{
    match x {
        Explanation::Refused(number, place) => answer::word(1, number, place),
        Explanation::Broken(number, names) => {
            answer::word(2, number, answer::four_bytes(answer::names_of(names)))
        }
        Explanation::Consistent(s) => settled_word(s),
        Explanation::Kept(n) => answer::word(8, 26, n),
        Explanation::Small => answer::word(1, 16, 0),
    }
}
