// A row of a sheet, tested and taken at once, by the accesses of its events as they stand in their table. No public function has a `requires`: an event counts by
// its place among 32.
#![tactic(auto)]

ghost use Rattle.std.specs.Prelude.{◌≡◌, ◌+◌, ◌≤◌, length, get_or};
ghost use Rattle.row_data.specs.RowData.{data_at, passed};
ghost use Rattle.take_row.specs.Taken.{known_test, join_test, rise_test, TakenRow};

use entries::Counts;
use format::field::FIELD_BYTES;
use format::{Row, Shape, field};
use tables::{COLUMNS, ROWS};

// Is the row r, of the field at p, above the one before it, which ends at p? The first row is. By the count, so that the compiler takes the first row out
// of the loop.
fn rises(s: &[u8], p: u16, x: Counts, r: Row) -> bool
    requires { p ≤ length s.now }
    ensures { result ≡ rise_test s.now p x r }
{
    if x.rows == 0 {
        return true;
    }
    let end = p as usize;
    if end < 3 {
        return false;
    }
    let start = end - 3;
    limits::row_below(layout::row_of(x.head.edition, &s[start..end]), r)
}

// The byte that the event at p saw at the flat byte n, where its access a covers it.
fn seen_at(s: &[u8], edition: u8, p: u16, a: Shape, n: u8) -> u8
    requires { a.start ≤ n }
    ensures { result ≡ get_or s.now (data_at edition p a n) 0 }
{
    let front = FIELD_BYTES + sizes::event_bytes(edition) as usize;
    field::byte(s, p as usize + front + (n - a.start) as usize)
}

// The byte that it wrote there.
fn wrote_at(s: &[u8], edition: u8, p: u16, a: Shape, n: u8) -> u8
    requires { a.start ≤ n }
    ensures { result ≡ get_or s.now (data_at edition p a n + passed a) 0 }
{
    let front = FIELD_BYTES + sizes::event_bytes(edition) as usize;
    field::byte(
        s,
        p as usize + front + (n - a.start) as usize + row_data::passed(a) as usize,
    )
}

// Is the field at p a row by its tag and its length, between events that stand before it, and is there a place for it in the table?
fn known(s: &[u8], p: u16, x: Counts, r: Row) -> bool
    ensures { result ≡ known_test s.now p x r }
{
    let here = (field::byte(s, p as usize) == 3)
        & (field::length_at(s, p as u32) == sizes::row_bytes(x.head.edition) as u16);
    let held = (r.reader < x.events) & (r.writer < x.events);
    (here & held) & ((x.rows as usize) < ROWS)
}

// Does the access a of its reader read the row's byte, and the access b of its writer, another event, write it?
fn joins(r: Row, a: Shape, b: Shape) -> bool
    ensures { result ≡ join_test r a b }
{
    let reads = ranges::covers(a, r.address) & access::reads(a);
    let writes = ranges::covers(b, r.address) & access::writes(b);
    reads & (writes & !(r.reader == r.writer))
}

// Takes the field at p where it passes the tests of a row: into the table, with the byte that its reader saw and the byte that its writer wrote. Answers whether
// it did.
pub fn take(s: &[u8], p: u16, x: Counts, at: &[u16], t: &[u8; COLUMNS], q: &mut [u8]) -> bool
    ensures { TakenRow s.now p x at.now t.now q.old result q.new }
{
    let edition = x.head.edition;
    let start = p as usize + FIELD_BYTES;
    let end = start + 3;
    if s.len() < end {
        return false;
    }
    let r = layout::row_of(edition, &s[start..end]);
    let known = known(s, p, x, r);
    if !known {
        return false;
    }
    let e = r.reader % 32;
    let w = r.writer % 32;
    let a = tables::shape(t, 2 * e as usize);
    let b = tables::shape(t, 2 * w as usize);
    let plain = joins(r, a, b) & rises(s, p, x, r);
    if !plain {
        return false;
    }
    let seen = seen_at(s, edition, entries::place_of(at, e), a, r.address);
    let wrote = wrote_at(s, edition, entries::place_of(at, w), b, r.address);
    store::put_row(q, x.rows as usize, r, seen, wrote);
    true
}
