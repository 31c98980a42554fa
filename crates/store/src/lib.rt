// The tables that every step of the judge works on: an entry written. No function has a `requires`: an event counts by its place among 32, a slot by
// its place among 64, a row by its place among 288, a pair by its place among 32, and what has no place in the buffer is not written.
#![tactic(auto)]

ghost use Rattle.std.specs.Prelude.{◌≡◌, ◌%◌, set};
ghost use Rattle.sets.specs.Mask.{slots};
ghost use Rattle.tables.specs.Tables.{accesses, row_room, pair_room, putting, putting_row, putting_pair};

use format::{Pair, Row, Shape};
use sets::SLOTS;
use tables::{ACCESSES, PAIRS, ROWS};

// Writes a byte.
fn put(bytes: &mut [u8], i: usize, b: u8)
    ensures { bytes.new ≡ set bytes.old i b }
{
    if i < bytes.len() {
        bytes[i] = b;
    }
}

pub fn put_agent(t: &mut [u8], e: usize, agent: u8)
    ensures { t.new ≡ set t.old (e % slots) agent }
{
    put(t, e % SLOTS, agent);
}

pub fn put_access(t: &mut [u8], k: usize, a: Shape)
    ensures { t.new ≡ putting t.old (k % accesses) a }
{
    let i = k % ACCESSES;
    put(t, SLOTS + i, a.kind);
    put(t, SLOTS + ACCESSES + i, a.mode);
    put(t, SLOTS + 2 * ACCESSES + i, a.start);
    put(t, SLOTS + 3 * ACCESSES + i, a.width);
    put(t, SLOTS + 4 * ACCESSES + i, a.tear);
}

pub fn put_row(q: &mut [u8], j: usize, r: Row, seen: u8, wrote: u8)
    ensures { q.new ≡ putting_row q.old (j % row_room) r seen wrote }
{
    let i = j % ROWS;
    put(q, i, r.reader);
    put(q, ROWS + i, r.address);
    put(q, 2 * ROWS + i, r.writer);
    put(q, 3 * ROWS + i, seen);
    put(q, 4 * ROWS + i, wrote);
}

pub fn put_pair(p: &mut [u8], j: usize, r: Pair)
    ensures { p.new ≡ putting_pair p.old (j % pair_room) r }
{
    let i = j % PAIRS;
    put(p, i, r.first);
    put(p, PAIRS + i, r.second);
}
