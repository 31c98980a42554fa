// Why no order exists (02 §8): a walk over the bars of a placement problem that drops each bar without which there is still no order.
//
// Tables as in `first_order`: before[b] is the mask of the events that have to come before b; bars[v * 32 + w] is the mask of the r with a bar
// (r, w, v). The bar (r, w, v) has the number r * 1024 + w * 32 + v, so that rising numbers are rising triples.
// No public function has a `requires`: what does not fit gets a stated answer, with nothing changed.
#![tactic(auto)]

ghost use Rattle.std.specs.Prelude.{◌≡◌, true, ◌++◌, ◌+◌, ◌-◌, ◌*◌, ◌<◌, ◌≤◌, length, set, drop};
ghost use Rattle.basis.specs.Test.{each};
ghost use Rattle.marks.specs.Table.{bytes_for, cleared};
ghost use Rattle.placing.specs.Placing.{FoundBelow};
ghost use Rattle.orders.specs.Step.{Below, Dead};
ghost use Rattle.orders.specs.Tables.{tabled};
ghost use Rattle.orders.specs.Answer.{Fits};
ghost use Rattle.kept.specs.Bars.{bytes_of};
ghost use Rattle.kept.specs.Keeps.{Keeps};
ghost use Rattle.kept.specs.steps.Numbers.{numbers, triple_of, mask_at, is_bar, bar_numbers, NextBar, Skips, BarStored};
ghost use Rattle.kept.specs.steps.Idle.{is_idle};
ghost use Rattle.kept.specs.steps.Thin.{Wide, cell, Turn, Thinned};

use gather::PAIRS;
use sets::SLOTS;

// How many numbers bars can have.
const NUMBERS: usize = PAIRS * SLOTS;

// The answer, four cases of their own, so no Option or Result: all bars together leave an order; how many are kept; the buffer can't hold the kept list; the inputs do not fit.
#[derive(Clone, Copy)]
pub enum Finding {
    Order,
    Bars(u32),
    Small,
    Unfit,
}

// ---- bars of a table, by number

// The mask of the bar's w and v.
fn mask_at(bars: &[u32; PAIRS], i: usize) -> u32
    ensures { result ≡ mask_at bars.now i }
{
    bars[(i % SLOTS) * SLOTS + i / SLOTS % SLOTS]
}

// Puts another mask there.
fn put(bars: &mut [u32], i: usize, mask: u32)
    ensures { bars.new ≡ set bars.old (cell i) mask }
{
    let at = (i % SLOTS) * SLOTS + i / SLOTS % SLOTS;
    if at < bars.len() {
        bars[at] = mask;
    }
}

// Whether the table has this bar, between events below m.
fn is_bar(m: usize, bars: &[u32; PAIRS], i: usize) -> bool
    ensures { result ≡ is_bar m bars.now i }
{
    let mask = mask_at(bars, i);
    let there = sets::has(mask, i / PAIRS);
    (i / SLOTS % SLOTS < m) & ((i % SLOTS < m) & there)
}

// Where to look next, behind a number that is no bar: where its W is no event, the numbers with that R are done; where its V is none, those with that W.
fn skip(m: usize, i: usize) -> usize
    requires { i < numbers }
    ensures { Skips m i result }
{
    if m <= i / SLOTS % SLOTS {
        return (i / PAIRS + 1) * PAIRS;
    }
    if m <= i % SLOTS {
        return (i / SLOTS + 1) * SLOTS;
    }
    i + 1
}

// The first bar from this number on; none if there is no such bar.
fn next(m: usize, bars: &[u32; PAIRS], from: usize) -> Option<usize>
    requires { from ≤ numbers }
    ensures { FoundBelow numbers (NextBar m bars.now from) result }
{
    let mut i = from;
    while i < NUMBERS {
        if is_bar(m, bars, i) {
            return Some(i);
        }
        i = skip(m, i);
    }
    None
}

// A copy of a table.
fn copy(bars: &[u32; PAIRS]) -> [u32; PAIRS]
    ensures { result ≡ bars.now }
{
    *bars
}

// ---- the walk

// Whether the bar is idle: r has to come before v, or v before a w that is no init. Then no search is needed to drop it.
fn idle(k: usize, before: &[u32; SLOTS], i: usize) -> bool
    ensures { result ≡ is_idle k before.now i }
{
    let first = sets::has(before[i % SLOTS], i / PAIRS);
    let second = sets::has(before[i / SLOTS % SLOTS], i);
    first | ((k <= i / SLOTS % SLOTS) & second)
}

// One turn: the bar is taken out, and put back where an order appears without it.
fn turn(
    k: usize,
    m: usize,
    before: &[u32; SLOTS],
    bars: &mut [u32; PAIRS],
    scratch: &mut [u8],
    i: usize,
)
    requires { Fits k m (length scratch.old) }
    ensures { Turn k m before.now bars.old i scratch.old bars.new scratch.new }
{
    let old = mask_at(bars, i);
    put(bars, i, sets::without(old, i / PAIRS));
    if !idle(k, before, i) {
        if first_order::possible(k, m, before, bars, scratch) {
            put(bars, i, old);
        }
    }
}

// All turns, from the first bar on. The scratch is clean before and after.
fn thin(k: usize, m: usize, before: &[u32; SLOTS], bars: &mut [u32; PAIRS], scratch: &mut [u8])
    requires { Fits k m (length scratch.old) × Wide bars.old × (scratch.old ≡ cleared (bytes_for (m - k)) scratch.old) × Dead (tabled m before.now bars.old) (Below k) }
    ensures { Thinned k m before.now bars.old bars.new × (scratch.new ≡ scratch.old) }
{
    let mut from: usize = 0;
    while let Some(i) = next(m, bars, from) {
        turn(k, m, before, bars, scratch, i);
        from = i + 1;
    }
}

// ---- the list

// How many bars the table has.
fn count(m: usize, bars: &[u32; PAIRS]) -> usize
    ensures { result ≡ length (bar_numbers m bars.now) }
{
    let mut n: usize = 0;
    let mut from: usize = 0;
    while let Some(i) = next(m, bars, from) {
        n += 1;
        from = i + 1;
    }
    n
}

// Writes one bar: r, w, v.
fn store(out: &mut [u8], at: usize, i: usize)
    requires { at + 3 ≤ length out.old }
    ensures { BarStored out.old at i out.new }
{
    out[at] = (i / PAIRS % SLOTS) as u8;
    out[at + 1] = (i / SLOTS % SLOTS) as u8;
    out[at + 2] = (i % SLOTS) as u8;
}

// Writes all bars of the table.
fn write(m: usize, bars: &[u32; PAIRS], out: &mut [u8])
    requires { length (bar_numbers m bars.now) * 3 ≤ length out.old }
    ensures { out.new ≡ bytes_of (each triple_of (bar_numbers m bars.now)) ++ drop (length (bar_numbers m bars.now) * 3) out.old }
{
    let mut at: usize = 0;
    let mut from: usize = 0;
    while let Some(i) = next(m, bars, from) {
        store(out, at, i);
        at += 3;
        from = i + 1;
    }
}

// The bars that are kept of all, where all together leave no order: how many, and in the buffer three bytes for each.
pub fn keep(
    inits: usize,
    events: usize,
    before: &[u32; SLOTS],
    bars: &[u32; PAIRS],
    scratch: &mut [u8],
    out: &mut [u8],
) -> Finding
    ensures { Keeps inits events before.now bars.now scratch.old out.old result scratch.new out.new }
{
    if !orders::fits(inits, events, scratch.len()) {
        return Finding::Unfit;
    }
    if first_order::possible(inits, events, before, bars, scratch) {
        return Finding::Order;
    }
    let mut left = copy(bars);
    thin(inits, events, before, &mut left, scratch);
    let n = count(events, &left);
    if out.len() < n * 3 {
        return Finding::Small;
    }
    write(events, &left, out);
    Finding::Bars(n as u32)
}
