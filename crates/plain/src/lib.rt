// Most fields of a sheet, read at once: a head, inits, other events, rows, as long as each is without a fault; the next is left to the reader, which
// asks every test of it.
#![tactic(auto)]

ghost use Rattle.std.specs.Prelude.{◌≡◌, true, List, ℕ, ◌+◌, ◌*◌, ◌≤◌, ◌<◌, length};
ghost use Rattle.sets.specs.Mask.{slots};
ghost use Rattle.format.specs.Limits.{max_bytes};
ghost use Rattle.format.specs.Shape.{tear_of};
ghost use Rattle.format.specs.Field.{rest_at};
ghost use Rattle.format.specs.Layout.{shape_of};
ghost use Rattle.entries.specs.Entries.{events_in};
ghost use Rattle.faults.specs.Faults.{front_bytes};
ghost use Rattle.spot.specs.Between.{blank_places, Stands, Tabled, Carried, Shaped, with_rows};
ghost use Rattle.plain.specs.Fields.{start_spot, FieldsTaken};
ghost use Rattle.plain.specs.steps.Growing.{Grown, TakenEvent, Fitting, Lined, FirstTold, BeginLeft, InitsLeft, EventsLeft, RowsLeft};

use entries::Counts;
use format::field::FIELD_BYTES;
use format::{MAX_BYTES, Shape, field};
use sets::SLOTS;
use spot::{Spot, Tally};
use tables::COLUMNS;

// By number: `fill` makes two loops of it, the last place apart.
fn clear(at: &mut [u16])
    requires { length at.old ≡ slots }
    ensures { at.new ≡ blank_places }
{
    for i in 0..SLOTS {
        at[i] = 0;
    }
}

// Before the first field.
fn start() -> Spot
    ensures { result ≡ start_spot }
{
    Spot {
        p: 0,
        last: 0,
        x: spot::blank(),
        t: Tally {
            bytes: 0,
            agents: 0,
        },
    }
}

// Behind the head.
fn begin(s: &[u8]) -> Spot
    requires { length s.now ≤ max_bytes }
    ensures { Stands s.now result blank_places × ((t q : List ℕ) → Tabled s.now result.x blank_places t t q q) × BeginLeft s.now result }
{
    let plain = faults::plain_head(s);
    if !plain {
        return start();
    }
    let next = spot::next_at(s, 0) as u16;
    let v = field::value_at(s, 0);
    Spot {
        p: next,
        last: 1,
        x: spot::behind(layout::head_of(field::byte(v, 0), v), 0, 0, next),
        ..start()
    }
}

// The shape of the event at a place, where the bytes before its data are there in any edition.
fn shape_here(s: &[u8], edition: u8, p: u16) -> Shape
    requires { p + 9 ≤ length s.now }
    ensures { result ≡ shape_of edition (rest_at s.now p) }
{
    let start = p as usize + FIELD_BYTES;
    let end = start + 6;
    layout::shape_of(edition, &s[start..end])
}

// 01's rule for tear-free, of an event that fits. 8 times its mode has the bit of a width of 8 in mode 1 alone: an unordered access of that width may tear.
fn tear_plain(a: Shape) -> u8
    requires { Fitting a }
    ensures { result ≡ tear_of a.kind a.mode a.start a.width }
{
    let aligned = a.start as u16 & (a.width as u16 + 255) == 0;
    let narrow = a.width as u16 & (a.mode as u16 * 8) == 0;
    (aligned & (narrow & !access::marks(a))) as u8
}

// The shape of the event at a place, which fits.
fn shape_plain(s: &[u8], edition: u8, p: u16) -> Shape
    requires { (p + 9 ≤ length s.now) × Fitting (shape_of 2 (rest_at s.now p)) }
    ensures { result ≡ shape_of edition (rest_at s.now p) }
{
    let a = shape_here(s, 2, p);
    match edition {
        2 => a,
        _ => Shape {
            tear: tear_plain(a),
            ..a
        },
    }
}

// Takes the event at p, without a fault and of shape a, as event n: into the places, the table and the tally.
fn take_event(
    s: &[u8],
    edition: u8,
    p: u16,
    n: u8,
    a: Shape,
    k: Tally,
    at: &mut [u16],
    t: &mut [u8],
) -> Tally
    requires { (p + front_bytes ≤ length s.now) × (n < slots) × (length at.old ≡ slots) × (k.bytes < max_bytes * 2) × (a ≡ shape_of edition (rest_at s.now p)) }
    ensures { TakenEvent s.now edition p n k at.old t.old result at.new t.new }
{
    let place = p as usize + FIELD_BYTES;
    let agent = s[place];
    spot::lay_event(p, n, agent, a, at, t);
    Tally {
        bytes: k.bytes + spot::read_width(a),
        agents: spot::noted(k.agents, agent),
    }
}

// Is the field at p an init without a fault, behind inits that lie before `high`? Inits mostly stand in the order of their ranges.
fn plain_first(s: &[u8], p: u16, x: Counts, at: &[u16], high: u16) -> bool
    requires { Lined (events_in s.now x at.now) high }
    ensures { FirstTold s.now p x at.now result }
{
    let plain = faults::plain_init(s, p, x);
    if !plain {
        return false;
    }
    let a = shape_here(s, x.head.edition, p);
    if high <= a.start as u16 {
        return true;
    }
    fits::stands_first(s, x, at, a)
}

// The end of the init at p, or `high` where that is more.
fn end_of(s: &[u8], p: u16, high: u16) -> u16
    requires { p + 9 ≤ length s.now }
    ensures { (high ≤ result) × ((shape_of 2 (rest_at s.now p)).start + (shape_of 2 (rest_at s.now p)).width ≤ result) }
{
    let a = shape_here(s, 2, p);
    let end = a.start as u16 + a.width as u16;
    if high <= end {
        return end;
    }
    high
}

// This loop and the two below go on by a field's length and end at the first field that is left, so that none is a `for`.
fn inits(s: &[u8], spot: Spot, at: &mut [u16], t: &mut [u8]) -> Spot
    requires { Stands s.now spot at.old }
    ensures { Grown s.now spot at.old t.old result at.new t.new × InitsLeft s.now spot result at.new }
{
    let h = spot.x.head;
    let mut n = spot.x.events;
    let mut k = spot.t;
    let mut last = spot.last;
    let mut p = spot.p;
    let mut high: u16 = 0;
    if last != 1 {
        return spot;
    }
    while (p as usize) < s.len() && plain_first(s, p, spot::behind(h, n, n, p), at, high) {
        let next = spot::next_at(s, p) as u16;
        high = end_of(s, p, high);
        let a = shape_here(s, h.edition, p);
        k = take_event(s, h.edition, p, n, a, k, at, t);
        n += 1;
        last = 2;
        p = next;
    }
    Spot {
        p,
        last,
        x: spot::behind(h, n, n, p),
        t: k,
    }
}

fn events(s: &[u8], spot: Spot, at: &mut [u16], t: &mut [u8]) -> Spot
    requires { Stands s.now spot at.old }
    ensures { Grown s.now spot at.old t.old result at.new t.new × EventsLeft s.now spot at.old result at.new }
{
    let h = spot.x.head;
    let inits = spot.x.inits;
    let mut n = spot.x.events;
    let mut k = spot.t;
    let mut last = spot.last;
    let mut p = spot.p;
    let here = content::within(1, 2, last);
    if !here {
        return spot;
    }
    while (p as usize) < s.len()
        && faults::plain_event(s, p, spot::behind(h, inits, n, p))
        && faults::tear_clean(s, h.edition, p)
    {
        let next = spot::next_at(s, p) as u16;
        let a = shape_plain(s, h.edition, p);
        k = take_event(s, h.edition, p, n, a, k, at, t);
        n += 1;
        last = 2;
        p = next;
    }
    Spot {
        p,
        last,
        x: spot::behind(h, inits, n, p),
        t: k,
    }
}

// The counts x with n rows, up to the place p.
fn with_rows(x: Counts, n: u16, p: u16) -> Counts
    ensures { result ≡ with_rows x n p }
{
    Counts {
        rows: n,
        pairs_at: p,
        pairs: 0,
        ..x
    }
}

fn rows(s: &[u8], spot: Spot, at: &[u16], t: &[u8; COLUMNS], q: &mut [u8]) -> Spot
    requires { Stands s.now spot at.now × Shaped s.now spot.x at.now t.now }
    ensures { Stands s.now result at.now × Carried s.now spot.x at.now t.now q.old result.x at.now t.now q.new × RowsLeft s.now t.now spot result }
{
    let x = spot.x;
    let k = spot.t;
    let mut n = x.rows;
    let mut last = spot.last;
    let mut p = spot.p;
    if last != 2 {
        return spot;
    }
    while (p as usize) < s.len() && take_row::take(s, p, with_rows(x, n, p), at, t, q) {
        n += 1;
        last = 3;
        p += 6;
    }
    Spot {
        p,
        last,
        x: with_rows(x, n, p),
        t: k,
    }
}

// The fields of a sheet of at most 4,096 bytes, front to back, the events and rows into the tables, up to one that is left: where the reader then stands.
// Of a longer one none is taken. What the places hold on entry does not matter.
pub fn fields(s: &[u8], at: &mut [u16; SLOTS], t: &mut [u8; COLUMNS], q: &mut [u8]) -> Spot
    ensures { FieldsTaken s.now t.old q.old result at.new t.new q.new }
{
    clear(at);
    if MAX_BYTES < s.len() {
        return start();
    }
    rows(s, events(s, inits(s, begin(s), at, t), at, t), at, t, q)
}
