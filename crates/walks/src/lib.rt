// A walk through the sets: whether all events can be placed one at a time, and then the first way. A set of placed events is a mask, and the path is the
// stack. The bars may stand in a table or in a short list (crate `glides`): what a search asks of them is the trait `Bars`.
//
// Tables: before[b] is the mask of the events that have to come before b; bars[v * 32 + w] is the mask of the r with a bar (r, w, v).
// The first k of the m events are the inits; the table of entered sets in the scratch has a bit for each set of the others.
// The public functions have no `requires`: what does not fit is answered false, with nothing changed.
#![tactic(auto)]

ghost use Rattle.std.specs.Prelude.{◌≡◌, false, ℕ, List, ◌%◌, ◌^◌, ◌<◌, ◌≤◌, length};
ghost use Rattle.sets.specs.Mask.{slots};
ghost use Rattle.placing.specs.Placing.{is_seen, FoundBelow};
ghost use Rattle.orders.specs.Tables.{tabled};
ghost use Rattle.orders.specs.Answer.{Fits};
ghost use Rattle.orders.specs.Walk.{Gathered, NextReady, Starting, Walked, Descended, Clean, Searched, Sought};
ghost use Rattle.force.specs.Forced.{Pressed};

use gather::PAIRS;
use sets::SLOTS;

// ---- the bars

// Bars, however they are held. No method has a `requires`: what it finds is said of bars that were got ready, and of numbers that fit.
pub trait Bars {
    // The table of masks that they stand for.
    ghost masks: { Self → List ℕ };

    // That they can be asked about the first m events.
    ghost ready: { ℕ → Self → Type 0 };

    // Gets ready for a search among the first m events.
    fn gather(&mut self, m: usize)
        ensures same { masks self.new ≡ masks self.old }
        ensures ready { m ≤ slots → ready m self.new };

    // The lowest event from k on, below m, that can be placed after those of the set s; none if there is no such event.
    fn lowest(&self, k: usize, m: usize, before: &[u32; SLOTS], s: u32) -> Option<usize>
        ensures { ready m self.now × (m ≤ slots) × (s < 2 ^ m) → FoundBelow m (NextReady (tabled m before.now (masks self.now)) (λ d. false) s k) result };

    // The lowest event from `from` on, below m, that can be placed after those of the set s and leads to a set that is not marked; none if there is no
    // such event.
    fn next(
        &self,
        k: usize,
        m: usize,
        before: &[u32; SLOTS],
        table: &[u8],
        s: u32,
        from: usize,
    ) -> Option<usize>
        ensures { ready m self.now × (m ≤ slots) × (s < 2 ^ m) → FoundBelow m (NextReady (tabled m before.now (masks self.now)) (is_seen (k % slots) table.now s) s from) result };

    // What they force, into f, whatever it held: whether some event then waits for itself, so that no way is left.
    fn force(&self, k: usize, m: usize, before: &[u32; SLOTS], f: &mut [u32; SLOTS]) -> bool
        ensures { ready m self.now × (k ≤ m) × (m ≤ slots) → Pressed (tabled m before.now (masks self.now)) k before.now result f.new };
}

// Bars in a table, with the writers that have bars with each event.
#[derive(Drop)]
pub struct Table<'a> {
    bars: &'a [u32; PAIRS],
    writers: [u32; SLOTS],
}

impl<'a> Table<'a> {
    pub fn new(bars: &'a [u32; PAIRS]) -> Table<'a>
        ensures { result.bars.now ≡ bars.now }
    {
        Table {
            bars,
            writers: [0; SLOTS],
        }
    }
}

impl<'a> Bars for Table<'a> {
    ghost masks = { λ t. t.bars.now };

    ghost ready = { λ m t. Gathered m t.bars.now t.writers };

    fn gather(&mut self, m: usize) {
        gather::gather(m, self.bars, &mut self.writers);
    }

    fn lowest(&self, k: usize, m: usize, before: &[u32; SLOTS], s: u32) -> Option<usize> {
        placing::lowest(m, before, self.bars, &self.writers, s, k)
    }

    fn next(
        &self,
        k: usize,
        m: usize,
        before: &[u32; SLOTS],
        table: &[u8],
        s: u32,
        from: usize,
    ) -> Option<usize> {
        placing::next(k, m, before, self.bars, &self.writers, table, s, from)
    }

    fn force(&self, k: usize, m: usize, before: &[u32; SLOTS], f: &mut [u32; SLOTS]) -> bool {
        force::by_table(k, m, before, self.bars, &self.writers, f)
    }
}

// ---- the walk

// Walks through the sets from that of the inits on, always to the lowest event that leads to a set not entered before, until all events are
// placed or no way is left. After a step back it goes on behind the event just taken back: so it goes over nothing that a `for` could.
fn walk<B: Bars>(
    k: usize,
    m: usize,
    before: &[u32; SLOTS],
    bars: &B,
    table: &mut [u8],
    path: &mut [u8],
) -> bool
    requires { Starting (tabled m before.now (B.masks bars.now)) k table.old path.old × B.ready m bars.now }
    ensures { Walked (tabled m before.now (B.masks bars.now)) k table.old result table.new path.new }
{
    let all = sets::full(m);
    let mut s = sets::full(k);
    let mut depth: usize = 0;
    let mut from = k;
    while s != all {
        match bars.next(k, m, before, table, s, from) {
            Some(e) => {
                s = placing::enter(k, s, e, table, path, depth);
                depth += 1;
                from = k;
            }
            None => {
                if depth == 0 {
                    return false;
                }
                depth -= 1;
                let x = path[depth] as usize;
                s = sets::without(s, x);
                from = x + 1;
            }
        }
    }
    true
}

// The same without marks and without a step back: always to the lowest event that can be placed, until all are or none can.
fn descend<B: Bars>(k: usize, m: usize, before: &[u32; SLOTS], bars: &B, path: &mut [u8]) -> bool
    requires { (k ≤ m) × (m ≤ slots) × (slots ≤ length path.old) × B.ready m bars.now }
    ensures { Descended (tabled m before.now (B.masks bars.now)) k result path.new }
{
    let all = sets::full(m);
    let mut s = sets::full(k);
    let mut depth: usize = 0;
    while s != all {
        let Some(e) = bars.lowest(k, m, before, s) else {
            return false;
        };
        path[depth] = e as u8;
        s = sets::with(s, e);
        depth += 1;
    }
    true
}

// From a clean scratch on, where no straight way was found: presses the bars, walks through the sets, and clears the marks.
fn through<B: Bars>(
    k: usize,
    m: usize,
    before: &[u32; SLOTS],
    bars: &B,
    scratch: &mut [u8],
    path: &mut [u8],
) -> bool
    requires { Clean k m scratch.old × (slots ≤ length path.old) × B.ready m bars.now }
    ensures { Searched (tabled m before.now (B.masks bars.now)) k scratch.old result scratch.new path.new }
{
    let mut f = [0u32; SLOTS];
    if bars.force(k, m, before, &mut f) {
        return false;
    }
    let found = walk(k, m, &f, bars, scratch, path);
    let need = marks::needed(m - k);
    marks::clear(scratch, need); // the marks of this search
    found
}

// Walks with a clean scratch, and cleans it again: whether all can be placed, and then in the path what comes after the inits.
fn search<B: Bars>(
    k: usize,
    m: usize,
    before: &[u32; SLOTS],
    bars: &mut B,
    scratch: &mut [u8],
    path: &mut [u8],
) -> bool
    requires { Fits k m (length scratch.old) × (slots ≤ length path.old) }
    ensures { Searched (tabled m before.now (B.masks bars.old)) k scratch.old result scratch.new path.new }
{
    bars.gather(m);
    let need = marks::needed(m - k);
    marks::clear(scratch, need); // whatever it held
    if descend(k, m, before, bars, path) {
        return true;
    }
    through(k, m, before, bars, scratch, path)
}

// Whether all events can be placed one at a time from the inits on, and then in the path what comes after them; by bars however they are held.
pub fn seek_by<B: Bars>(
    inits: usize,
    events: usize,
    before: &[u32; SLOTS],
    bars: &mut B,
    scratch: &mut [u8],
    path: &mut [u8; SLOTS],
) -> bool
    ensures { Sought inits events before.now (B.masks bars.old) scratch.old path.old result scratch.new path.new }
{
    if !orders::fits(inits, events, scratch.len()) {
        return false;
    }
    search(inits, events, before, bars, scratch, path)
}

// The same by a table of bars.
pub fn seek(
    inits: usize,
    events: usize,
    before: &[u32; SLOTS],
    bars: &[u32; PAIRS],
    scratch: &mut [u8],
    path: &mut [u8; SLOTS],
) -> bool
    ensures { Sought inits events before.now bars.now scratch.old path.old result scratch.new path.new }
{
    seek_by(inits, events, before, &mut Table::new(bars), scratch, path)
}
