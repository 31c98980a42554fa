// What a sheet is refused for, and the first fault of a field, by the counts and places of what stands before it; and a refusal's place.
#![tactic(auto)]

ghost use Rattle.std.specs.Prelude.{◌≡◌, ◌-◌};
ghost use Rattle.parse.specs.Parse.{place_of, allowed, head_fault, event_fault_by, row_fault, pair_fault, value_fault_by};
ghost use Rattle.entries.specs.Entries.{events_in, rows_in, pairs_in, execution};
ghost use Rattle.faults.specs.Number.{number_of, told};
ghost use Rattle.faults.specs.Faults.{room_by, fault_in, ends_test, HeadTold, InitTold, OtherTold, tear_test};

use entries::Counts;
use format::field::FIELD_BYTES;
use format::{MAX_INITS, MAX_OTHERS, MAX_PAIRS, Shape, field};
use sizes::PAIR_BYTES;

// What is wrong with a sheet, each with its refusal's number. 12 and 13 are of the buffers that are lent to a judge, and no faults of a sheet.
#[derive(Clone, Copy, PartialEq, Eq, Debug)]
pub enum Fault {
    TooLong = 1,
    CutShort = 2,
    OutOfPlace = 3,
    WrongLength = 4,
    BadHead = 5,
    BadEvent = 6,
    BadRow = 7,
    BadPair = 8,
    TooMany = 9,
    NothingRead = 10,
    NoSource = 11,
    AgentMissing = 14,
}

impl Fault {
    // The refusal's number.
    pub fn number(self) -> u8
        ensures { result ≡ number_of self }
    {
        self as u8
    }
}

// The place of a refusal of a field, from its number and the place of the tag: made here and nowhere else. By number: a fault would ask more of callers.
pub fn place_of(number: u8, tag: u16) -> u32
    ensures { result ≡ place_of number tag }
{
    tag as u32
}

fn allowed(last: u8, tag: u8) -> bool
    ensures { result ≡ allowed last tag }
{
    match tag {
        1 => last == 0,
        2 => content::within(1, 2, last),
        3 => content::within(1, 3, last),
        4 => content::within(1, 4, last),
        _ => false,
    }
}

fn head_fault(v: &[u8]) -> Result<(), Fault>
    ensures { told result ≡ head_fault v.now }
{
    let edition = field::byte(v, 0);
    let long = v.len() == sizes::head_bytes(edition) as usize;
    if !long {
        return Err(Fault::WrongLength);
    }
    let fits = limits::head_fits(layout::head_of(edition, v));
    if !fits {
        return Err(Fault::BadHead);
    }
    Ok(())
}

// The events that are no inits, as counted; none where the inits are more.
fn others(x: Counts) -> u8
    ensures { result ≡ x.events - x.inits }
{
    if x.inits < x.events {
        return x.events - x.inits;
    }
    0
}

fn event_fault(s: &[u8], x: Counts, at: &[u16], v: &[u8]) -> Result<(), Fault>
    ensures { told result ≡ event_fault_by (room_by x) x.head (events_in s.now x at.now) v.now }
{
    let least = sizes::event_bytes(x.head.edition) as usize;
    let short = v.len() < least;
    if short {
        return Err(Fault::WrongLength);
    }
    let agent = field::byte(v, 0);
    let a = layout::shape_of(x.head.edition, v);
    let fits = fits::event_fits(s, x, at, agent, a);
    if !fits {
        return Err(Fault::BadEvent);
    }
    let exact = v.len() == least + sizes::data_bytes(a) as usize;
    if !exact {
        return Err(Fault::WrongLength);
    }
    let room = limits::room_for(x.inits, others(x), agent);
    if !room {
        return Err(Fault::TooMany);
    }
    Ok(())
}

fn row_fault(s: &[u8], x: Counts, at: &[u16], v: &[u8]) -> Result<(), Fault>
    ensures { told result ≡ row_fault x.head (events_in s.now x at.now) (rows_in s.now x) v.now }
{
    let long = v.len() == sizes::row_bytes(x.head.edition) as usize;
    if !long {
        return Err(Fault::WrongLength);
    }
    let fits = fits::row_fits(s, x, at, layout::row_of(x.head.edition, v));
    if !fits {
        return Err(Fault::BadRow);
    }
    Ok(())
}

fn pair_fault(s: &[u8], x: Counts, at: &[u16], v: &[u8]) -> Result<(), Fault>
    ensures { told result ≡ pair_fault (events_in s.now x at.now) (pairs_in s.now x) v.now }
{
    let long = v.len() == PAIR_BYTES as usize;
    if !long {
        return Err(Fault::WrongLength);
    }
    let fits = fits::pair_fits(s, x, at, layout::pair_of(v));
    if !fits {
        return Err(Fault::BadPair);
    }
    let room = x.pairs < MAX_PAIRS;
    if !room {
        return Err(Fault::TooMany);
    }
    Ok(())
}

fn value_fault(s: &[u8], x: Counts, at: &[u16], tag: u8, v: &[u8]) -> Result<(), Fault>
    ensures { told result ≡ value_fault_by (room_by x) (execution s.now x at.now) tag v.now }
{
    match tag {
        1 => head_fault(v),
        2 => event_fault(s, x, at, v),
        3 => row_fault(s, x, at, v),
        4 => pair_fault(s, x, at, v),
        _ => Err(Fault::OutOfPlace),
    }
}

// The first fault of the field at p, if it has one.
pub fn fault_at(s: &[u8], p: u16, last: u8, x: Counts, at: &[u16]) -> Result<(), Fault>
    ensures { told result ≡ fault_in s.now p last x at.now }
{
    let place = p as usize;
    let stub = s.len() < place + FIELD_BYTES;
    if stub {
        return Err(Fault::CutShort);
    }
    let tag = field::byte(s, place);
    let here = allowed(last, tag);
    if !here {
        return Err(Fault::OutOfPlace);
    }
    let next = place + FIELD_BYTES + field::length_at(s, p as u32) as usize;
    let over = s.len() < next;
    if over {
        return Err(Fault::CutShort);
    }
    value_fault(s, x, at, tag, field::value_at(s, p as u32))
}

// ---- most fields, with few jumps: is the field such a one, and without a fault? Any other is left to `fault_at`.

// The bytes of a field before an event's data, in any edition.
const FRONT_BYTES: usize = 9;

// The first field as a head.
pub fn plain_head(s: &[u8]) -> bool
    ensures { HeadTold s.now result }
{
    let v = field::value_at(s, 0);
    let there = (FIELD_BYTES <= s.len())
        & (FIELD_BYTES + field::length_at(s, 0) as usize <= s.len());
    let here = there & (field::byte(s, 0) == 1);
    if !here {
        return false;
    }
    head_fault(v).is_ok()
}

// The value of the field at p is one of an event of shape a by its length, and ends within the sheet.
fn event_ends(s: &[u8], p: u16, edition: u8, a: Shape) -> bool
    ensures { result ≡ ends_test s.now p edition a }
{
    let len = field::length_at(s, p as u32) as usize;
    let exact = len == sizes::event_bytes(edition) as usize + sizes::data_bytes(a) as usize;
    exact & (p as usize + FIELD_BYTES + len <= s.len())
}

// The field at p, behind a head or an init, as an init by itself. As below it is read by edition 2's layout.
pub fn plain_init(s: &[u8], p: u16, x: Counts) -> bool
    ensures { InitTold s.now p x result }
{
    let place = p as usize;
    let short = s.len() < place + FRONT_BYTES;
    if short {
        return false;
    }
    let edition = x.head.edition;
    let a = entries::shape_at(s, 2, p);
    let fits = content::init_alone(x.head, entries::agent_at(s, p), a);
    let here = (field::byte(s, place) == 2) & event_ends(s, p, edition, a);
    let tear = !(edition == 2) | (a.tear == 0);
    (here & fits) & (tear & (x.inits < MAX_INITS))
}

// The field at p, behind a head or an event, as an event that is no init, but for its tear byte. It is read by edition 2's layout, which has the
// tear byte as it stands; at edition 1 no test here asks for it.
pub fn plain_event(s: &[u8], p: u16, x: Counts) -> bool
    ensures { OtherTold s.now p x result }
{
    let place = p as usize;
    let short = s.len() < place + FRONT_BYTES;
    if short {
        return false;
    }
    let edition = x.head.edition;
    let a = entries::shape_at(s, 2, p);
    let fits = content::other_alone(x.head, entries::agent_at(s, p), a);
    let here = (field::byte(s, place) == 2) & event_ends(s, p, edition, a);
    let room = (x.events as u16) < x.inits as u16 + MAX_OTHERS as u16;
    here & (fits & room)
}

// The tear byte of the event at p: edition 1 has none, and its rule gives one that fits. A test of its own, so that most sheets pass it by one jump.
pub fn tear_clean(s: &[u8], edition: u8, p: u16) -> bool
    ensures { result ≡ tear_test s.now edition p }
{
    match edition {
        2 => content::tear_fits(entries::shape_at(s, 2, p)),
        _ => true,
    }
}
