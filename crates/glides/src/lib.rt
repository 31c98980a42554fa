// Bars in a short list, for the search of crate `walks`: which event is next is asked entry by entry, and no table is made.
//
// before[b] is the mask of the events that have to come before b; entry i of the list has the bars (readers[i], writers[i], v), for each v of between[i].
// The first k of the m events are the inits; the table of entered sets in the scratch has a bit for each set of the others.
// The public functions have no `requires`: what does not fit is answered false, with nothing changed.
#![tactic(auto)]

ghost use Rattle.std.specs.Prelude.{◌≡◌, false, ◌%◌, ◌^◌, ◌<◌, ◌≤◌, min, length};
ghost use Rattle.sets.specs.Mask.{slots, Within, full};
ghost use Rattle.placing.specs.Placing.{is_seen, FoundBelow};
ghost use Rattle.orders.specs.Listed.{list_room, listed_bars};
ghost use Rattle.orders.specs.Walk.{Sought};
ghost use Rattle.glides.specs.steps.Glide.{Barred, NextAfter};

use orders::LIST;
use sets::SLOTS;
use walks::Bars;

// ---- which event is next

// The lowest event of `left` of which all that has to come before is placed; none if there is no such event.
fn lowest_of(m: usize, before: &[u32; SLOTS], s: u32, left: u32) -> Option<usize>
    requires { Within left (full m) }
    ensures { FoundBelow m (NextAfter m before.now (λ d. false) s left) result }
{
    for v in sets::members(left) {
        if sets::subset(before[v], s) {
            return Some(v);
        }
    }
    None
}

// The same, and it leads to a set that is not marked. A closure for this one test would need a contract as long as the loop.
fn next_of(
    k: usize,
    m: usize,
    before: &[u32; SLOTS],
    table: &[u8],
    s: u32,
    left: u32,
) -> Option<usize>
    requires { Within left (full m) }
    ensures { FoundBelow m (NextAfter m before.now (is_seen (k % slots) table.now s) s left) result }
{
    for e in sets::members(left) {
        if sets::subset(before[e], s) {
            let x = sets::above(sets::with(s, e), k);
            if !marks::marked(table, x as usize) {
                return Some(e);
            }
        }
    }
    None
}

// ---- the list

// A list of bars, of whose entries the first n count. The three arrays stand side by side as the pass over the rows (crate `sift`) fills them.
#[derive(Drop)]
pub struct Entries<'a> {
    between: &'a [u32; LIST],
    readers: &'a [u8; LIST],
    writers: &'a [u8; LIST],
    n: usize,
    ghost few: { n ≤ list_room },
}

impl<'a> Entries<'a> {
    // The first n entries count, as far as there is room for them.
    pub fn new(
        between: &'a [u32; LIST],
        readers: &'a [u8; LIST],
        writers: &'a [u8; LIST],
        n: usize,
    ) -> Entries<'a>
        ensures between { result.between.now ≡ between.now }
        ensures readers { result.readers.now ≡ readers.now }
        ensures writers { result.writers.now ≡ writers.now }
        ensures n { result.n ≡ min n list_room }
    {
        Entries {
            between,
            readers,
            writers,
            n: sets::least(n, LIST),
        }
    }

    // The events that an entry stops where the events of s are placed: its writer is, and its reader is not.
    fn barred(&self, s: u32) -> u32
        ensures { Barred self.now.between.now self.now.readers.now self.now.writers.now self.now.n s result }
    {
        let mut c: u32 = 0;
        // Three arrays side by side: an iterator over all three is no plainer.
        for i in 0..self.n {
            let on = sets::has(s, self.writers[i] as usize)
                & !sets::has(s, self.readers[i] as usize);
            c |= sets::only(on, self.between[i]);
        }
        c
    }
}

impl<'a> Bars for Entries<'a> {
    ghost masks = { λ l. listed_bars l.between.now l.readers.now l.writers.now l.n };

    ghost ready = { λ m l. Unit };

    fn gather(&mut self, m: usize) {}

    fn lowest(&self, k: usize, m: usize, before: &[u32; SLOTS], s: u32) -> Option<usize> {
        let left = sets::rest(s, k, m) & !self.barred(s);
        lowest_of(m, before, s, left)
    }

    fn next(
        &self,
        k: usize,
        m: usize,
        before: &[u32; SLOTS],
        table: &[u8],
        s: u32,
        from: usize,
    ) -> Option<usize> {
        let left = sets::rest(s, from, m) & !self.barred(s);
        next_of(k, m, before, table, s, left)
    }

    fn force(&self, k: usize, m: usize, before: &[u32; SLOTS], f: &mut [u32; SLOTS]) -> bool {
        force::by_list(
            k,
            m,
            before,
            self.between,
            self.readers,
            self.writers,
            self.n,
            f,
        )
    }
}

// As `walks::seek`, by a list of bars, of which the first n entries count, as far as there is room for them. No table is made.
pub fn seek(
    inits: usize,
    events: usize,
    before: &[u32; SLOTS],
    between: &[u32; LIST],
    readers: &[u8; LIST],
    writers: &[u8; LIST],
    n: usize,
    scratch: &mut [u8],
    path: &mut [u8; SLOTS],
) -> bool
    ensures { Sought inits events before.now (listed_bars between.now readers.now writers.now (min n list_room)) scratch.old path.old result scratch.new path.new }
{
    let mut entries = Entries::new(between, readers, writers, n);
    walks::seek_by(inits, events, before, &mut entries, scratch, path)
}
