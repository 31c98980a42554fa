// The first order in which all events can be placed, one at a time, and whether there is one: by the walk of crate `walks`, over a table of bars or over a
// short list (crate `glides`).
//
// Tables: before[b] is the mask of the events that have to come before b; bars[v * 32 + w] is the mask of the r with a bar (r, w, v). A short list
// of bars may stand for such a table.
// The first `inits` of the `events` are the inits; the table of entered sets in the scratch has a bit for each set of the others.
// No public function has a `requires`: what does not fit gets a stated answer, with nothing changed.
#![tactic(auto)]

ghost use Rattle.std.specs.Prelude.{◌≡◌, ◌++◌, ◌+◌, ◌-◌, ◌<◌, ◌≤◌, min, length, get_or, take, drop};
ghost use Rattle.basis.specs.Test.{from};
ghost use Rattle.sets.specs.Mask.{slots};
ghost use Rattle.orders.specs.Listed.{list_room, listed_bars};
ghost use Rattle.orders.specs.Answer.{Told, Answered};

use gather::PAIRS;
use glides::Entries;
use orders::LIST;
use sets::SLOTS;
use walks::{Bars, Table};

// The event at place i of the order that begins with k inits and goes on with the path.
fn event_at(k: usize, path: &[u8], i: usize) -> u8
    requires { (k ≤ slots) × (i < k + length path.now) }
    ensures { result ≡ get_or (from 0 k ++ path.now) i 0 }
{
    if i < k {
        return i as u8;
    }
    path[i - k]
}

// Writes the first m events of that order.
fn write(k: usize, m: usize, path: &[u8], order: &mut [u8])
    requires { (k ≤ m) × (m ≤ slots) × (m - k ≤ length path.now) × (m ≤ length order.old) }
    ensures { order.new ≡ take m (from 0 k ++ path.now) ++ drop m order.old }
{
    for (i, e) in order[..m].iter_mut().enumerate() {
        *e = event_at(k, path, i);
    }
}

// The first order in which all events can be placed one at a time, from the set of the inits on, by bars however they are held: whether there is one, and
// then in the order buffer. Where the numbers or the buffers do not fit, false, and nothing is changed.
fn first_by<B: Bars>(
    inits: usize,
    events: usize,
    before: &[u32; SLOTS],
    bars: &mut B,
    scratch: &mut [u8],
    order: &mut [u8],
) -> bool
    ensures { Answered inits events before.now (B.masks bars.old) scratch.old order.old result scratch.new order.new }
{
    if order.len() < events {
        return false;
    }
    let mut path = [0u8; SLOTS];
    if walks::seek_by(inits, events, before, bars, scratch, &mut path) {
        write(inits, events, &path, order);
        return true;
    }
    false
}

// That order by a table of bars.
pub fn first(
    inits: usize,
    events: usize,
    before: &[u32; SLOTS],
    bars: &[u32; PAIRS],
    scratch: &mut [u8],
    order: &mut [u8],
) -> bool
    ensures { Answered inits events before.now bars.now scratch.old order.old result scratch.new order.new }
{
    let mut table = Table::new(bars);
    first_by(inits, events, before, &mut table, scratch, order)
}

// The same by a list of bars, of which the first n entries count, as far as there is room for them. No table is made.
pub fn first_listed(
    inits: usize,
    events: usize,
    before: &[u32; SLOTS],
    between: &[u32; LIST],
    readers: &[u8; LIST],
    writers: &[u8; LIST],
    n: usize,
    scratch: &mut [u8],
    order: &mut [u8],
) -> bool
    ensures { Answered inits events before.now (listed_bars between.now readers.now writers.now (min n list_room)) scratch.old order.old result scratch.new order.new }
{
    let mut entries = Entries::new(between, readers, writers, n);
    first_by(inits, events, before, &mut entries, scratch, order)
}

// Whether there is an order.
pub fn possible(
    inits: usize,
    events: usize,
    before: &[u32; SLOTS],
    bars: &[u32; PAIRS],
    scratch: &mut [u8],
) -> bool
    ensures { Told inits events before.now bars.now scratch.old result scratch.new }
{
    let mut path = [0u8; SLOTS];
    walks::seek(inits, events, before, bars, scratch, &mut path)
}
