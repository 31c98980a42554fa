// The tables that every step of the judge works on, in arrays of fixed length: their lengths, and what stands in that of accesses; rows and pairs
// are read by crates/rows. No function has a `requires`: an event counts by its place among 32, a slot by its place among 64.
#![tactic(auto)]

ghost use Rattle.std.specs.Prelude.{◌≡◌, ◌%◌};
ghost use Rattle.sets.specs.Mask.{slots};
ghost use Rattle.tables.specs.Tables.{accesses, agent_in, shape_in, slot_in, at_in};

use format::Shape;
use ranges::covers;
use sets::SLOTS;

// The slots for accesses, two to an event.
pub const ACCESSES: usize = 64;

// The places for agents: a sheet has at most 8.
pub const AGENTS: usize = 16;

// A column of 32 agents, then five of 64: kind, mode, start, width, tear.
pub const COLUMNS: usize = SLOTS + 5 * ACCESSES;

// A well-formed sheet has at most 8 rows for each access of its events that are not inits: 144 today, 288 where an event has two.
pub const ROWS: usize = 288;

// Five columns: reader, flat byte, writer, seen, wrote.
pub const ROW_CELLS: usize = 5 * ROWS;

// At most 32 pairs.
pub const PAIRS: usize = 32;

// Two columns: first, second.
pub const PAIR_CELLS: usize = 2 * PAIRS;

pub fn agent(t: &[u8; COLUMNS], e: usize) -> u8
    ensures { result ≡ agent_in t.now (e % slots) }
{
    t[e % SLOTS] % AGENTS as u8
}

pub fn shape(t: &[u8; COLUMNS], k: usize) -> Shape
    ensures { result ≡ shape_in t.now (k % accesses) }
{
    let i = k % ACCESSES;
    Shape {
        kind: t[SLOTS + i],
        mode: t[SLOTS + ACCESSES + i],
        start: t[SLOTS + 2 * ACCESSES + i],
        width: t[SLOTS + 3 * ACCESSES + i],
        tear: t[SLOTS + 4 * ACCESSES + i],
    }
}

// The slot of event e's access that covers the flat byte a; the second where the first does not.
pub fn slot_at(t: &[u8; COLUMNS], e: usize, a: u8) -> usize
    ensures { result ≡ slot_in t.now (e % slots) a }
{
    let k = 2 * (e % SLOTS);
    if covers(shape(t, k), a) { k } else { k + 1 }
}

// The access of event e that covers the flat byte a, or one that does nothing.
pub fn at(t: &[u8; COLUMNS], e: usize, a: u8) -> Shape
    ensures { result ≡ at_in t.now (e % slots) a }
{
    let b = shape(t, slot_at(t, e, a));
    if covers(b, a) {
        return b;
    }
    Shape {
        kind: 0,
        mode: 0,
        start: 0,
        width: 0,
        tear: 0,
    }
}
