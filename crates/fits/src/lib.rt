// The content of an event, a row, a pair, among those before it in the sheet: the tests of 01 that look at other fields.
#![tactic(auto)]

ghost use Rattle.std.specs.Prelude.{◌≡◌};
ghost use Rattle.basis.specs.Test.{any};
ghost use Rattle.content.specs.Content.{stands_first, event_fits, row_rises, row_fits, pair_rises, pair_fits};
ghost use Rattle.entries.specs.Entries.{events_in, rows_in, pairs_in};
ghost use Rattle.fits.specs.steps.ByNumber.{shape_no, agent_no, blocks};

use entries::Counts;
use format::{Pair, Row, Shape};

// The shape of event e; one that does nothing where there is no such event.
fn shape_no(s: &[u8], x: Counts, at: &[u16], e: u8) -> Shape
    ensures { result ≡ shape_no s.now x at.now e }
{
    if e < entries::count(x, at) {
        return entries::shape_at(s, x.head.edition, at[e as usize]);
    }
    Shape {
        kind: 0,
        mode: 0,
        start: 0,
        width: 0,
        tear: 0,
    }
}

// The agent of event e; 0 where there is no such event.
fn agent_no(s: &[u8], x: Counts, at: &[u16], e: u8) -> u8
    ensures { result ≡ agent_no s.now x at.now e }
{
    if e < entries::count(x, at) {
        return entries::agent_at(s, at[e as usize]);
    }
    0
}

// Does an event so far keep an init of shape a from standing here: one that is no init, or overlaps it?
fn blocked(s: &[u8], x: Counts, at: &[u16], a: Shape) -> bool
    ensures { result ≡ any (blocks a) (events_in s.now x at.now) }
{
    let n = entries::count(x, at);
    let edition = x.head.edition;
    for p in &at[..n as usize] {
        let no_init = entries::agent_at(s, *p) != 0;
        let hit = no_init | ranges::overlap(a, entries::shape_at(s, edition, *p));
        if hit {
            return true;
        }
    }
    false
}

// An init of shape a, behind the events so far.
pub fn stands_first(s: &[u8], x: Counts, at: &[u16], a: Shape) -> bool
    ensures { result ≡ stands_first (events_in s.now x at.now) a }
{
    !blocked(s, x, at, a)
}

// An event of this agent and shape, behind the events so far.
pub fn event_fits(s: &[u8], x: Counts, at: &[u16], agent: u8, a: Shape) -> bool
    ensures { result ≡ event_fits x.head (events_in s.now x at.now) agent a }
{
    let alone = content::alone(x.head, agent, a);
    if !alone {
        return false;
    }
    let first = access::initial(a);
    if !first {
        return true;
    }
    stands_first(s, x, at, a)
}

fn row_rises(s: &[u8], x: Counts, r: Row) -> bool
    ensures { result ≡ row_rises (rows_in s.now x) r }
{
    let n = x.rows;
    if n == 0 {
        return true;
    }
    limits::row_below(entries::row_no(s, x, n - 1), r)
}

// A row, behind the rows so far.
pub fn row_fits(s: &[u8], x: Counts, at: &[u16], r: Row) -> bool
    ensures { result ≡ row_fits (events_in s.now x at.now) (rows_in s.now x) r }
{
    let a = shape_no(s, x, at, r.reader);
    let b = shape_no(s, x, at, r.writer);
    let reads = ranges::covers(a, r.address) & access::reads(a);
    let writes = ranges::covers(b, r.address) & access::writes(b);
    (reads & (writes & !(r.reader == r.writer))) & row_rises(s, x, r)
}

fn pair_rises(s: &[u8], x: Counts, p: Pair) -> bool
    ensures { result ≡ pair_rises (pairs_in s.now x) p }
{
    let n = x.pairs;
    if n == 0 {
        return true;
    }
    limits::pair_below(entries::pair_no(s, x, n - 1), p)
}

// A pair, behind the pairs so far.
pub fn pair_fits(s: &[u8], x: Counts, at: &[u16], p: Pair) -> bool
    ensures { result ≡ pair_fits (events_in s.now x at.now) (pairs_in s.now x) p }
{
    let apart = !(agent_no(s, x, at, p.first) == agent_no(s, x, at, p.second));
    let first = access::marks(shape_no(s, x, at, p.first));
    let second = access::marks(shape_no(s, x, at, p.second));
    (first & (second & apart)) & pair_rises(s, x, p)
}
