// Which event can be placed next, over tables of masks, whatever they hold, and the step that places it.
//
// Tables: before[b] is the mask of the events that have to come before b; bars[v * 32 + w] is the mask of the r with a bar (r, w, v). A set of
// placed events is a mask; the table of entered sets looks a set up by its members from k up. No public function has a `requires`.
#![tactic(auto)]

ghost use Rattle.std.specs.Prelude.{◌≡◌, false, ◌%◌, ◌<◌};
ghost use Rattle.sets.specs.Tells.{Tells};
ghost use Rattle.sets.specs.Mask.{slots, mem};
ghost use Rattle.placing.specs.Placing.{Unbarred, Free, FoundBelow, NextFree, LowestFree, Entered};

use gather::PAIRS;
use sets::SLOTS;

// Whether no bar forbids to place v after the events of the set s. Only the writers that have bars with v are looked at.
fn unbarred(bars: &[u32; PAIRS], writers: u32, s: u32, v: usize) -> bool
    requires { v < slots }
    ensures { Tells result (Unbarred bars.now writers s v) }
{
    for w in sets::members(writers & s) {
        if !sets::subset(bars[v * SLOTS + w], s) {
            return false;
        }
    }
    true
}

// Whether v, which is not in the set s, can be placed next, after the events of s.
fn may(before: &[u32; SLOTS], bars: &[u32; PAIRS], writers: u32, s: u32, v: usize) -> bool
    requires { (v < slots) × (mem s v ≡ false) }
    ensures { Tells result (Free before.now bars.now writers s v) }
{
    if !sets::subset(before[v], s) {
        return false;
    }
    unbarred(bars, writers, s, v)
}

// The lowest event from `from` on, below m, that can be placed after those of the set s and leads to a set that is not marked; none if there is no such event.
pub fn next(
    k: usize,
    m: usize,
    before: &[u32; SLOTS],
    bars: &[u32; PAIRS],
    writers: &[u32; SLOTS],
    table: &[u8],
    s: u32,
    from: usize,
) -> Option<usize>
    ensures { FoundBelow m (NextFree (k % slots) m before.now bars.now writers.now table.now s from) result }
{
    for e in sets::members(sets::rest(s, from, m)) {
        if may(before, bars, writers[e], s, e) {
            let x = sets::above(sets::with(s, e), k);
            if !marks::marked(table, x as usize) {
                return Some(e);
            }
        }
    }
    None
}

// The lowest event from `from` on, below m, that can be placed after those of the set s, whatever it leads to; none if there is no such event.
pub fn lowest(
    m: usize,
    before: &[u32; SLOTS],
    bars: &[u32; PAIRS],
    writers: &[u32; SLOTS],
    s: u32,
    from: usize,
) -> Option<usize>
    ensures { FoundBelow m (LowestFree m before.now bars.now writers.now s from) result }
{
    for v in sets::members(sets::rest(s, from, m)) {
        if may(before, bars, writers[v], s, v) {
            return Some(v);
        }
    }
    None
}

// A step on: places e after the events of s, marks the new set and puts e on the path; a place beyond the path's end is not written.
pub fn enter(k: usize, s: u32, e: usize, table: &mut [u8], path: &mut [u8], depth: usize) -> u32
    ensures { Entered (k % slots) s (e % slots) depth table.old path.old result table.new path.new }
{
    let t = sets::with(s, e);
    let x = sets::above(t, k);
    marks::mark(table, x as usize);
    if depth < path.len() {
        path[depth] = (e % SLOTS) as u8;
    }
    t
}
