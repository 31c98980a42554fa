// The bytes that a lent table stands for (crates/encode), put into a buffer. What has no place in the buffer is not written: in a buffer of more than
// 4,096 bytes the place after the last byte tells whether the sheet would be too long.
#![tactic(auto)]

ghost use Rattle.std.specs.Prelude.{◌≡◌, cond, List, [], ℕ, ◌+◌, ◌-◌, ◌*◌, ◌≤◌, leb, length, take};
ghost use Rattle.basis.specs.Test.{each, from};
ghost use Rattle.puts.specs.Put.{Puts};
ghost use Rattle.encode.specs.Encode.{field, kind_byte, event_value, run, encode};
ghost use Rattle.encode.specs.Lent.{part, description_bytes, data_length, description_of, description_no, lent};
ghost use Rattle.compose.specs.steps.Opening.{opening};

use format::field;
use sizes::PAIR_BYTES;

// The bytes of an event's description, as it is lent.
const DESCRIPTION: usize = 8;

// The tag and the length of a value of n bytes.
fn put_opening(out: &mut [u8], at: usize, tag: u8, n: usize) -> usize
    ensures { Puts (opening tag n) at result out.old out.new }
{
    let v = [tag, (n / 256 % 256) as u8, (n % 256) as u8];
    puts::put_bytes(out, at, &v)
}

fn put_field(out: &mut [u8], at: usize, tag: u8, v: &[u8]) -> usize
    ensures { Puts (field tag v.now) at result out.old out.new }
{
    let next = put_opening(out, at, tag, v.len());
    puts::put_bytes(out, next, v)
}

// A field for each of n entries of `gap` bytes.
fn put_entries(out: &mut [u8], at: usize, tag: u8, gap: usize, n: usize, list: &[u8]) -> usize
    requires { n * gap ≤ length list.now }
    ensures { Puts (run tag (λ (v : List ℕ). v) (each (part gap list.now) (from 0 n))) at result out.old out.new }
{
    let mut next = at;
    for i in 0..n {
        let k = i * gap;
        next = put_field(out, next, tag, &list[k..k + gap]);
    }
    next
}

// ---- events

// The kind of a description; one that is not listed where a sheet of the edition would say another tear byte: at edition 1, which has none, what the rule
// gives. A description begins as an event's value of edition 2 does.
fn kind_byte(edition: u8, d: &[u8]) -> u8
    ensures { result ≡ kind_byte edition (description_of d.now []) }
{
    let a = layout::shape_of(edition, d);
    if field::byte(d, 5) == a.tear {
        a.kind
    } else {
        0
    }
}

// The first n bytes of v.
fn put_front(out: &mut [u8], at: usize, v: &[u8], n: usize) -> usize
    requires { n ≤ length v.now }
    ensures { Puts (take n v.now) at result out.old out.new }
{
    puts::put_bytes(out, at, &v[..n])
}

fn put_event(out: &mut [u8], at: usize, edition: u8, d: &[u8], bytes: &[u8]) -> usize
    ensures { Puts (field 2 (event_value edition (description_of d.now bytes.now))) at result out.old out.new }
{
    let v = [
        field::byte(d, 0),
        kind_byte(edition, d),
        field::byte(d, 2),
        field::byte(d, 3),
        field::byte(d, 4),
        field::byte(d, 5),
    ];
    let n = sizes::event_bytes(edition) as usize;
    let value = put_opening(out, at, 2, bytes.len() + n);
    let rest = put_front(out, value, &v, n);
    puts::put_bytes(out, rest, bytes)
}

// The place behind `want` bytes from a place on, or the end where there are fewer.
fn end_of(size: usize, first: usize, want: usize) -> usize
    requires { first ≤ size }
    ensures { result ≡ cond (leb want (size - first)) (first + want) size }
{
    if want <= size - first {
        first + want
    } else {
        size
    }
}

// The number of data bytes that a description says it has.
fn data_length(d: &[u8]) -> usize
    ensures { result ≡ data_length d.now }
{
    field::byte(d, 6) as usize * 256 + field::byte(d, 7) as usize
}

fn put_events(
    out: &mut [u8],
    at: usize,
    edition: u8,
    n: usize,
    events: &[u8],
    bytes: &[u8],
) -> usize
    requires { n * description_bytes ≤ length events.now }
    ensures { Puts (run 2 (event_value edition) (each (description_no events.now bytes.now) (from 0 n))) at result out.old out.new }
{
    let mut next = at;
    let mut first = 0;
    for i in 0..n {
        let k = i * DESCRIPTION;
        let d = &events[k..k + DESCRIPTION];
        let end = end_of(bytes.len(), first, data_length(d));
        next = put_event(out, next, edition, d, &bytes[first..end]);
        first = end;
    }
    next
}

// ---- the whole sheet

// The sheet of a lent table, from the buffer's front on; the place after it.
pub fn compose(
    out: &mut [u8],
    head: &[u8],
    events: &[u8],
    bytes: &[u8],
    rows: &[u8],
    pairs: &[u8],
) -> usize
    ensures { Puts (encode (lent head.now events.now bytes.now rows.now pairs.now)) 0 result out.old out.new }
{
    let edition = field::byte(head, 0);
    let v = [edition, field::byte(head, 1), field::byte(head, 2)];
    let row = sizes::row_bytes(edition) as usize;
    let pair = PAIR_BYTES as usize;
    let a = put_field(out, 0, 1, &v);
    let b = put_events(out, a, edition, events.len() / DESCRIPTION, events, bytes);
    let c = put_entries(out, b, 3, row, rows.len() / row, rows);
    put_entries(out, c, 4, pair, pairs.len() / pair, pairs)
}
