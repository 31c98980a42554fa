// Where the reader of a sheet stands between two fields: the counts and the tally so far, and what a field more makes of them. No function has a `requires`.
#![tactic(auto)]

ghost use Rattle.std.specs.Prelude.{◌≡◌, cond, ◌*◌, ◌%◌, ◌≤◌, ltb, set};
ghost use Rattle.sets.specs.Mask.{slots, insert};
ghost use Rattle.format.specs.Shape.{reads};
ghost use Rattle.format.specs.Field.{next_at};
ghost use Rattle.tables.specs.Tables.{putting};
ghost use Rattle.spot.specs.Between.{blank_counts, behind};

use entries::Counts;
use format::field::FIELD_BYTES;
use format::{Head, Shape, field};
use sets::SLOTS;

// What the events so far come to: how many bytes they read, and their agents as a set.
#[derive(Clone, Copy)]
pub struct Tally {
    pub bytes: u16,
    pub agents: u32,
}

// Where the reader stands: at a place, behind a field with the tag `last` (0 for none), with the counts and the tally so far.
#[derive(Clone, Copy)]
pub struct Spot {
    pub p: u16,
    pub last: u8,
    pub x: Counts,
    pub t: Tally,
}

// ---- places and counts

// The place behind the field at p. It fits 32 bits.
pub fn next_at(s: &[u8], p: u16) -> u32
    ensures { result ≡ next_at s.now p }
{
    p as u32 + FIELD_BYTES as u32 + field::length_at(s, p as u32) as u32
}

// Before the first field.
pub fn blank() -> Counts
    ensures { result ≡ blank_counts }
{
    let head = Head {
        edition: 0,
        agents: 0,
        size: 0,
    };
    behind(head, 0, 0, 0)
}

// The counts behind n events, k of them inits, up to the place p.
pub fn behind(h: Head, k: u8, n: u8, p: u16) -> Counts
    ensures { result ≡ behind h k n p }
{
    Counts {
        head: h,
        inits: k,
        events: n,
        rows_at: p,
        rows: 0,
        pairs_at: p,
        pairs: 0,
    }
}

// ---- the tally, with one event more

// The bytes that an access reads. Without a jump: whether an event reads is hard to foresee.
pub fn read_width(a: Shape) -> u16
    ensures { (result ≡ cond (reads a) a.width 0) × (result ≤ 255) }
{
    access::reads(a) as u16 * a.width as u16
}

// The agents with one more.
pub fn noted(agents: u32, agent: u8) -> u32
    ensures { result ≡ cond (ltb agent slots) (insert agents agent) agents }
{
    if (agent as usize) < SLOTS {
        return sets::with(agents, agent as usize);
    }
    agents
}

// ---- the tables

// Keeps a place.
fn keep(at: &mut [u16], i: usize, p: u16)
    ensures { at.new ≡ set at.old i p }
{
    if i < at.len() {
        at[i] = p;
    }
}

// Event n, whose field stands at p: its place is kept, and its agent and its access go into the table. An event counts by its place among 32, and what has
// no place in the lent arrays is not written.
pub fn lay_event(p: u16, n: u8, agent: u8, a: Shape, at: &mut [u16], t: &mut [u8])
    ensures { (at.new ≡ set at.old (n % slots) p) × (t.new ≡ putting (set t.old (n % slots) agent) (2 * (n % slots)) a) }
{
    let i = n as usize % SLOTS;
    keep(at, i, p);
    store::put_agent(t, i, agent);
    store::put_access(t, 2 * i, a);
}
