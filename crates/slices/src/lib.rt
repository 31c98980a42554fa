// The slices of a table (crates/encode/specs/Lend.antt), each put into a lent buffer from its first byte on, out of a sheet whose counts and places
// are given. No function has a `requires`: what has no place in the buffer is not written.
#![tactic(auto)]

ghost use Rattle.std.specs.Prelude.{◌≡◌, take, drop};
ghost use Rattle.encode.specs.Encode.{head_value};
ghost use Rattle.puts.specs.Put.{Puts};
ghost use Rattle.slices.specs.Sliced.{eight_at, data_bytes_at, events_slice, data_slice, rows_slice, pairs_slice, DataCounted};

use entries::Counts;
use format::{Head, field};

// The bytes of a head.
pub fn put_head(out: &mut [u8], h: Head) -> usize
    ensures { Puts (head_value h) 0 result out.old out.new }
{
    let bytes = [h.edition, h.agents, h.size];
    puts::put_bytes(out, 0, &bytes)
}

// The eight bytes of the event at p, put at `to`.
fn put_event(out: &mut [u8], to: usize, s: &[u8], edition: u8, p: u16) -> usize
    ensures { Puts (eight_at s.now edition p) to result out.old out.new }
{
    let agent = entries::agent_at(s, p);
    let a = entries::shape_at(s, edition, p);
    let n = sizes::data_bytes(a);
    let bytes = [
        agent,
        a.kind,
        a.mode,
        a.start,
        a.width,
        a.tear,
        (n / 256) as u8,
        (n % 256) as u8,
    ];
    puts::put_bytes(out, to, &bytes)
}

// The events.
pub fn put_events(out: &mut [u8], s: &[u8], x: Counts, at: &[u16]) -> usize
    ensures { Puts (events_slice s.now x at.now) 0 result out.old out.new }
{
    let edition = x.head.edition;
    let n = entries::count(x, at) as usize;
    let mut next = 0;
    for p in &at[..n] {
        next = put_event(out, next, s, edition, *p);
    }
    next
}

// n bytes from `start` on, or what there is of them.
fn part(v: &[u8], start: usize, n: usize) -> &[u8]
    ensures { result.now ≡ take n (drop start v.now) }
{
    if start <= v.len() {
        if n <= v.len() - start {
            &v[start..start + n]
        } else {
            &v[start..]
        }
    } else {
        &v[..0]
    }
}

// The data of the event at p, as a part of the sheet.
fn data_at(s: &[u8], edition: u8, p: u16) -> &[u8]
    ensures { result.now ≡ data_bytes_at s.now edition p }
{
    let n = sizes::data_bytes(entries::shape_at(s, edition, p));
    let v = field::rest_at(s, p as u32);
    part(v, sizes::event_bytes(edition) as usize, n as usize)
}

// The data of all events.
pub fn put_data(out: &mut [u8], s: &[u8], x: Counts, at: &[u16]) -> usize
    ensures { Puts (data_slice s.now x at.now) 0 result out.old out.new }
{
    let edition = x.head.edition;
    let n = entries::count(x, at) as usize;
    let mut next = 0;
    for p in &at[..n] {
        next = puts::put_bytes(out, next, data_at(s, edition, *p));
    }
    next
}

// How many bytes of data the events say that they have.
pub fn data_count(s: &[u8], x: Counts, at: &[u16]) -> u32
    ensures { DataCounted s.now x at.now result }
{
    let edition = x.head.edition;
    let n = entries::count(x, at) as usize;
    let mut sum: u32 = 0;
    for p in &at[..n] {
        sum += sizes::data_bytes(entries::shape_at(s, edition, *p)) as u32;
    }
    sum
}

// The rows.
pub fn put_rows(out: &mut [u8], s: &[u8], x: Counts) -> usize
    ensures { Puts (rows_slice s.now x) 0 result out.old out.new }
{
    let mut next = 0;
    for j in 0..x.rows {
        let r = entries::row_no(s, x, j);
        let bytes = [r.reader, r.address, r.writer];
        next = puts::put_bytes(out, next, &bytes);
    }
    next
}

// The pairs.
pub fn put_pairs(out: &mut [u8], s: &[u8], x: Counts) -> usize
    ensures { Puts (pairs_slice s.now x) 0 result out.old out.new }
{
    let mut next = 0;
    for j in 0..x.pairs {
        let p = entries::pair_no(s, x, j);
        let bytes = [p.first, p.second];
        next = puts::put_bytes(out, next, &bytes);
    }
    next
}
