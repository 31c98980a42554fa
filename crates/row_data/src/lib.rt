// A row into its table, with the byte that its reader saw and the byte that its writer wrote, read out of the sheet. No function has a `requires`.
#![tactic(auto)]

ghost use Rattle.std.specs.Prelude.{◌≡◌, ◌-◌};
ghost use Rattle.row_data.specs.RowData.{laid_shape, data_at, passed, row_put};

use entries::Counts;
use format::field::FIELD_BYTES;
use format::{Shape, field};
use tables::ACCESSES;

// The access of event e whose data is read: that in its first slot. Beside `tables::shape`, which asks for a whole table: `row` answers for any slice.
fn access(t: &[u8], e: u8) -> Shape
    ensures { result ≡ laid_shape t.now e }
{
    let k = 2 * e as usize % ACCESSES;
    Shape {
        kind: field::byte(t, 32 + k),
        mode: field::byte(t, 96 + k),
        start: field::byte(t, 160 + k),
        width: field::byte(t, 224 + k),
        tear: field::byte(t, 288 + k),
    }
}

// How far the byte a lies behind a start; 0 where it lies before it.
fn past(start: u8, a: u8) -> u8
    ensures { result ≡ a - start }
{
    if start <= a { a - start } else { 0 }
}

// Where the data of the event at p, whose access is b, has the byte a.
fn data_at(edition: u8, p: u16, b: Shape, a: u8) -> u32
    ensures { result ≡ data_at edition p b a }
{
    p as u32 + FIELD_BYTES as u32 + sizes::event_bytes(edition) as u32 + past(b.start, a) as u32
}

// How much of its data stands before what an access wrote. Without a jump: whether an event reads and writes is hard to foresee.
pub fn passed(b: Shape) -> u8
    ensures { result ≡ passed b }
{
    (b.kind == 3) as u8 * b.width
}

// Row j, with the byte that its reader saw and the byte that its writer wrote.
pub fn row(s: &[u8], x: Counts, at: &[u16], t: &[u8], j: u16, q: &mut [u8])
    ensures { q.new ≡ row_put s.now x at.now t.now j q.old }
{
    let edition = x.head.edition;
    let r = entries::row_no(s, x, j);
    let read = access(t, r.reader);
    let from = data_at(edition, entries::place_of(at, r.reader), read, r.address);
    let seen = field::byte(s, from as usize);
    let write = access(t, r.writer);
    let behind = data_at(edition, entries::place_of(at, r.writer), write, r.address);
    let wrote = field::byte(s, behind as usize + passed(write) as usize);
    store::put_row(q, j as usize, r, seen, wrote);
}
