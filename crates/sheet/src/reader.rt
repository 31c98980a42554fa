// The reader: the fields front to back, and what is tested after all of them.
ghost use Rattle.std.specs.Prelude.{◌≡◌, true, cond, ◌+◌, ◌*◌, ◌≤◌, ◌<◌, eqb, length};
ghost use Rattle.basis.specs.Test.{any};
ghost use Rattle.sets.specs.Mask.{slots};
ghost use Rattle.format.specs.Limits.{max_bytes};
ghost use Rattle.format.specs.Event.{reads_some};
ghost use Rattle.format.specs.Field.{tag_at};
ghost use Rattle.parse.specs.Parse.{place_of, missing, lowest_lacking, finish};
ghost use Rattle.entries.specs.Entries.{event_at, events_in, execution};
ghost use Rattle.lacking.specs.Lacking.{lack_of};
ghost use Rattle.sheet.specs.Handed.{Handed};
ghost use Rattle.sheet.specs.Filled.{Filled};
ghost use Rattle.faults.specs.Faults.{view};
ghost use Rattle.faults.specs.Number.{number_of};
ghost use Rattle.spot.specs.Between.{Ready, Advanced, Tallied, tally_with, Carried, with_event, with_row, with_pair, Through};
ghost use Rattle.sheet.specs.steps.Scanned.{Scanned, Finished, refusal_of};

use crate::{Refusal, Scan, Whole};
use entries::Counts;
use faults::Fault;
use format::{MAX_BYTES, field};
use sets::SLOTS;
use spot::Tally;
use tables::{COLUMNS, ROW_CELLS};

// ---- the counts behind a field

fn with_event(x: Counts, agent: u8, next: u16) -> Counts
    requires { (x.events < slots) × (x.inits ≤ x.events) }
    ensures { result ≡ with_event x agent next }
{
    let y = Counts {
        events: x.events + 1,
        rows_at: next,
        rows: 0,
        pairs_at: next,
        pairs: 0,
        ..x
    };
    if agent == 0 {
        return Counts {
            inits: y.inits + 1,
            ..y
        };
    }
    y
}

fn with_row(x: Counts, next: u16) -> Counts
    requires { x.rows < max_bytes }
    ensures { result ≡ with_row x next }
{
    Counts {
        rows: x.rows + 1,
        pairs_at: next,
        pairs: 0,
        ..x
    }
}

fn with_pair(x: Counts) -> Counts
    requires { x.pairs < max_bytes }
    ensures { result ≡ with_pair x }
{
    Counts {
        pairs: x.pairs + 1,
        ..x
    }
}

// The counts behind the field at p, which has no fault; an event or a row goes into its table.
fn after(
    s: &[u8],
    p: u16,
    last: u8,
    x: Counts,
    at: &mut [u16],
    t: &mut [u8],
    q: &mut [u8],
) -> Counts
    requires { Ready s.now p last x at.old }
    ensures { Advanced s.now p last x at.old result at.new × Carried s.now x at.old t.old q.old result at.new t.new q.new }
{
    let tag = field::byte(s, p as usize);
    let next = spot::next_at(s, p) as u16;
    let v = field::value_at(s, p as u32);
    match tag {
        1 => spot::behind(layout::head_of(field::byte(v, 0), v), 0, 0, next),
        2 => {
            let agent = entries::agent_at(s, p);
            let a = entries::shape_at(s, x.head.edition, p);
            spot::lay_event(p, x.events, agent, a, at, t);
            with_event(x, field::byte(v, 0), next)
        }
        3 => {
            row_data::row(s, x, at, t, x.rows, q);
            with_row(x, next)
        }
        4 => with_pair(x),
        _ => x,
    }
}

// ---- the tally, with one event more

// The event at p; what is asked of it stands alike in every edition.
fn tallied(s: &[u8], p: u16, t: Tally) -> Tally
    requires { t.bytes < max_bytes * 2 }
    ensures { (result ≡ tally_with t (event_at s.now 2 p)) × (result.bytes ≤ t.bytes + 255) }
{
    let a = entries::shape_at(s, 2, p);
    Tally {
        bytes: t.bytes + spot::read_width(a),
        agents: spot::noted(t.agents, entries::agent_at(s, p)),
    }
}

// The field at p, by its tag.
fn tally_after(s: &[u8], p: u16, t: Tally) -> Tally
    requires { t.bytes < max_bytes * 2 }
    ensures { (result ≡ cond (eqb (tag_at s.now p) 2) (tally_with t (event_at s.now 2 p)) t) × (result.bytes ≤ t.bytes + 255) }
{
    let tag = field::byte(s, p as usize);
    match tag {
        2 => tallied(s, p, t),
        _ => t,
    }
}

// ---- the loop over all fields

// The refusal for a fault of the field whose tag stands at a place.
fn at_field(fault: Fault, tag: u16) -> Refusal
    ensures { result ≡ refusal_of fault (place_of (number_of fault) tag) }
{
    Refusal {
        fault,
        place: faults::place_of(fault.number(), tag),
    }
}

// The fields, front to back, up to the first at fault, the events and rows into the tables. No `for`: a field's length says where the next one stands.
fn fields(s: &[u8], at: &mut [u16; SLOTS], t: &mut [u8; COLUMNS], q: &mut [u8]) -> Scan
    requires { length s.now ≤ max_bytes }
    ensures { Scanned s.now t.old q.old result at.new t.new q.new }
{
    let spot = plain::fields(s, at, t, q);
    let mut x = spot.x;
    let mut k = spot.t;
    let mut last = spot.last;
    let mut p = spot.p;
    while (p as usize) < s.len() {
        if let Err(fault) = faults::fault_at(s, p, last, x, at) {
            return Scan {
                end: Err(at_field(fault, p)),
                last,
                x,
                t: k,
            };
        }
        let next = spot::next_at(s, p) as u16;
        k = tally_after(s, p, k);
        x = after(s, p, last, x, at, t, q);
        last = field::byte(s, p as usize);
        p = next;
    }
    Scan {
        end: Ok(()),
        last,
        x,
        t: k,
    }
}

// ---- after all fields

// Does some event read? Where a byte is read, yes.
fn some_read(s: &[u8], x: Counts, at: &[u16], t: Tally) -> bool
    requires { Tallied (events_in s.now x at.now) t }
    ensures { result ≡ any reads_some (events_in s.now x at.now) }
{
    if t.bytes != 0 {
        return true;
    }
    lacking::some_read(s, x, at)
}

// Does the head promise an agent that has no event?
fn missing(s: &[u8], x: Counts, at: &[u16], t: Tally) -> bool
    requires { Tallied (events_in s.now x at.now) t }
    ensures { result ≡ missing (execution s.now x at.now) }
{
    let n = x.head.agents as usize;
    if n + 1 < SLOTS {
        let promised = sets::without(sets::full(n + 1), 0);
        return !sets::subset(promised, t.agents);
    }
    agents::missing(s, x, at)
}

// The lowest event that has a read byte without a row; none where there are as many rows as read bytes.
fn lack(s: &[u8], last: u8, x: Counts, at: &[u16], t: Tally) -> Option<u8>
    requires { Through s.now last x at.now × Tallied (events_in s.now x at.now) t }
    ensures { lack_of result ≡ lowest_lacking (execution s.now x at.now) }
{
    if t.bytes == x.rows {
        return None;
    }
    lacking::lowest_lacking(s, x, at)
}

// The refusal for a fault of no field: at the start of the sheet.
fn at_start(fault: Fault) -> Refusal
    ensures { result ≡ refusal_of fault 0 }
{
    Refusal { fault, place: 0 }
}

// The same at its end.
fn at_end(fault: Fault, s: &[u8]) -> Refusal
    requires { length s.now ≤ max_bytes }
    ensures { result ≡ refusal_of fault (length s.now) }
{
    Refusal {
        fault,
        place: s.len() as u32,
    }
}

fn finish(s: &[u8], last: u8, x: Counts, at: &[u16], t: Tally) -> Result<(), Refusal>
    requires { Through s.now last x at.now × Tallied (events_in s.now x at.now) t }
    ensures { Finished result (execution s.now x at.now) (finish s.now (view s.now last x at.now)) }
{
    let none = last == 0;
    if none {
        return Err(at_start(Fault::OutOfPlace));
    }
    let some = some_read(s, x, at, t);
    if !some {
        return Err(at_end(Fault::NothingRead, s));
    }
    let lost = missing(s, x, at, t);
    if lost {
        return Err(at_end(Fault::AgentMissing, s));
    }
    match lack(s, last, x, at, t) {
        None => Ok(()),
        Some(e) => Err(at_field(Fault::NoSource, entries::place_of(at, e))),
    }
}

// Reads a sheet: its counts and places, with its events and rows in the tables; or the refusal. What the lent arrays hold on entry does not matter.
pub fn fill(
    s: &[u8],
    at: &mut [u16; SLOTS],
    t: &mut [u8; COLUMNS],
    q: &mut [u8; ROW_CELLS],
) -> Result<Counts, Refusal>
    ensures { Filled s.now result at.new t.old t.new q.old q.new }
{
    if MAX_BYTES < s.len() {
        return Err(at_start(Fault::TooLong));
    }
    let scan = fields(s, at, t, q);
    scan.end?;
    finish(s, scan.last, scan.x, at, scan.t)?;
    Ok(scan.x)
}

// Reads a sheet: its counts and places, or the refusal.
pub fn read(s: &[u8]) -> Result<Whole, Refusal>
    ensures { Handed s.now result }
{
    let mut at = [0u16; SLOTS];
    let mut t = [0u8; COLUMNS];
    let mut q = [0u8; ROW_CELLS];
    let counts = fill(s, &mut at, &mut t, &mut q)?;
    Ok(Whole { counts, at })
}
