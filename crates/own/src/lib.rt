// The direct steps that events make by themselves: an init leads to what it meets, another event to the later events of its agent. Mask by mask; no
// function has a `requires`.
#![tactic(auto)]

ghost use Rattle.std.specs.Prelude.{◌≡◌, cond, ◌%◌, min, eqb};
ghost use Rattle.sets.specs.Mask.{slots};
ghost use Rattle.sets.specs.Tells.{Tells};
ghost use Rattle.cells.specs.Walk.{picked};
ghost use Rattle.cells.specs.Cells.{placing};
ghost use Rattle.own.specs.Own.{meets_in, met_in, later_of, earlier_of};
ghost use Rattle.own.specs.Lone.{Lone};
ghost use Rattle.own.specs.steps.ByAgent.{agents_in, behind_in, ahead_in};

use cells::{gain, place, take};
use sets::{SLOTS, least};
use tables::{ACCESSES, AGENTS, COLUMNS};

// Shares an access of event e a byte with one of event d? Without a jump: which events an init meets is hard to foresee.
fn meets(t: &[u8; COLUMNS], e: usize, d: usize) -> bool
    ensures { result ≡ meets_in t.now (e % slots) (d % slots) }
{
    let i = 2 * (e % SLOTS);
    let j = 2 * (d % SLOTS);
    let a = tables::shape(t, i);
    let b = tables::shape(t, i + 1);
    let c = tables::shape(t, j);
    let f = tables::shape(t, j + 1);
    (ranges::overlap(a, c) | ranges::overlap(a, f))
        | (ranges::overlap(b, c) | ranges::overlap(b, f))
}

// Is d another event that e meets?
fn met_by(t: &[u8; COLUMNS], e: usize, d: usize) -> bool
    ensures { result ≡ met_in t.now (e % slots) (d % slots) }
{
    (e % SLOTS != d % SLOTS) & meets(t, e, d)
}

// The other events below n that e meets; n counts up to the slots, and so below.
pub fn met(t: &[u8; COLUMNS], n: usize, e: usize) -> u32
    ensures { result ≡ picked (min n slots) (met_in t.now (e % slots)) }
{
    let m = least(n, SLOTS);
    let mut s = 0;
    for d in 0..m {
        s = take(s, d, met_by(t, e, d));
    }
    s
}

// Has no event a second access? All slots are looked at, without a jump, so that the machine takes several at once.
pub fn lone(t: &[u8; COLUMNS]) -> bool
    ensures { Tells result (Lone t.now slots) }
{
    let mut c = false;
    for k in 0..ACCESSES {
        let a = tables::shape(t, k);
        c = c | ((k % 2 == 1) & (a.width != 0));
    }
    !c
}

// The mask of each agent gains its events below n.
fn agents(t: &[u8; COLUMNS], n: usize, by: &mut [u32])
    ensures { by.new ≡ agents_in t.now (min n slots) by.old }
{
    let m = least(n, SLOTS);
    for e in 0..m {
        gain(by, tables::agent(t, e) as usize, e);
    }
}

// The events of e's agent behind e.
fn behind(t: &[u8; COLUMNS], by: &[u32; AGENTS], e: usize) -> u32
    ensures { result ≡ behind_in t.now by.now (e % slots) }
{
    let i = e % SLOTS;
    by[tables::agent(t, i) as usize % AGENTS] & !sets::full(i + 1)
}

// Those ahead of it.
fn ahead(t: &[u8; COLUMNS], by: &[u32; AGENTS], e: usize) -> u32
    ensures { result ≡ ahead_in t.now by.now (e % slots) }
{
    let i = e % SLOTS;
    by[tables::agent(t, i) as usize % AGENTS] & sets::full(i)
}

// A mask, or nothing for agent 0, whose events are the inits.
fn unless_init(agent: u8, m: u32) -> u32
    ensures { result ≡ cond (eqb agent 0) 0 m }
{
    if agent == 0 { 0 } else { m }
}

// The masks of the first n events: what is later in their agent's order, and what is earlier.
pub fn laters(t: &[u8; COLUMNS], n: usize, later: &mut [u32], earlier: &mut [u32])
    ensures { (later.new ≡ placing (later_of t.now (min n slots)) (min n slots) later.old) × (earlier.new ≡ placing (earlier_of t.now (min n slots)) (min n slots) earlier.old) }
{
    let mut by = [0u32; AGENTS];
    agents(t, n, &mut by);
    let m = least(n, SLOTS);
    for e in 0..m {
        let agent = tables::agent(t, e);
        place(later, e, unless_init(agent, behind(t, &by, e)));
        place(earlier, e, unless_init(agent, ahead(t, &by, e)));
    }
}
