// What the counts and places of a sheet describe: an event's agent and shape, a row, a pair. Nothing is copied, and each function answers for every
// number. What is asked of an event or a row stands in a few bytes: where the sheet has them, they are read without a test for each.
#![tactic(auto)]

ghost use Rattle.std.specs.Prelude.{◌≡◌, ◌+◌, ◌*◌, min, length, get_or, take};
ghost use Rattle.format.specs.Field.{rest_at};
ghost use Rattle.format.specs.Layout.{event_bytes, agent_of, shape_of, row_gap};
ghost use Rattle.entries.specs.Entries.{row_no, pair_no};

use format::field::FIELD_BYTES;
use format::{Head, Pair, Row, Shape, field};
use sizes::PAIR_BYTES;

// How much a sheet holds: its head, how many inits and events, rows and pairs, and the places of the first row and the first pair.
#[derive(Clone, Copy)]
pub struct Counts {
    pub head: Head,
    pub inits: u8,
    pub events: u8,
    pub rows_at: u16,
    pub rows: u16,
    pub pairs_at: u16,
    pub pairs: u16,
}

// How many events have a place.
pub fn count(x: Counts, at: &[u16]) -> u8
    ensures { result ≡ min x.events (length at.now) }
{
    let n = x.events;
    if (n as usize) <= at.len() {
        n
    } else {
        at.len() as u8
    }
}

// The place of event e; 0 where there is none.
pub fn place_of(at: &[u16], e: u8) -> u16
    ensures { result ≡ get_or at.now e 0 }
{
    let i = e as usize;
    if i < at.len() { at[i] } else { 0 }
}

// The agent of the event at a place.
pub fn agent_at(s: &[u8], at: u16) -> u8
    ensures { result ≡ agent_of (rest_at s.now at) }
{
    field::byte(s, at as usize + FIELD_BYTES)
}

// The bytes before its data, or what there is of them.
fn front_at(s: &[u8], edition: u8, at: u16) -> &[u8]
    ensures { result.now ≡ take (event_bytes edition) (rest_at s.now at) }
{
    let start = at as usize + FIELD_BYTES;
    let end = start + sizes::event_bytes(edition) as usize;
    if end <= s.len() {
        return &s[start..end];
    }
    field::rest_at(s, at as u32)
}

// The shape of its access.
pub fn shape_at(s: &[u8], edition: u8, at: u16) -> Shape
    ensures { result ≡ shape_of edition (rest_at s.now at) }
{
    layout::shape_of(edition, front_at(s, edition, at))
}

// Where the field of row j stands.
fn row_at(x: Counts, j: u16) -> u32
    ensures { result ≡ x.rows_at + j * row_gap x.head.edition }
{
    let gap = FIELD_BYTES as u32 + sizes::row_bytes(x.head.edition) as u32;
    x.rows_at as u32 + j as u32 * gap
}

// Row number j.
pub fn row_no(s: &[u8], x: Counts, j: u16) -> Row
    ensures { result ≡ row_no s.now x j }
{
    let edition = x.head.edition;
    let p = row_at(x, j);
    let start = p as usize + FIELD_BYTES;
    let end = start + sizes::row_bytes(edition) as usize;
    if end <= s.len() {
        return layout::row_of(edition, &s[start..end]);
    }
    layout::row_of(edition, field::rest_at(s, p))
}

// Pair number j.
pub fn pair_no(s: &[u8], x: Counts, j: u16) -> Pair
    ensures { result ≡ pair_no s.now x j }
{
    let gap = FIELD_BYTES as u32 + PAIR_BYTES as u32;
    layout::pair_of(field::rest_at(s, x.pairs_at as u32 + j as u32 * gap))
}
