// The content of an event by itself: a test for each sentence of 01 that asks for nothing but the event and the head. Reader and writer use them. Of the other
// fields: crates/limits.
#![tactic(auto)]

ghost use Rattle.std.specs.Prelude.{◌≡◌, eqb, ◌%◌};
ghost use Rattle.basis.specs.Test.{◌and◌, ◌or◌};
ghost use Rattle.format.specs.Shape.{initial};
ghost use Rattle.content.specs.steps.Widths.{widths_of};
ghost use Rattle.content.specs.Content.{within, inside, init_formed, sized, kind_fits, other_formed, formed, tear_fits, alone};

use format::{Head, MAX_MEMORY, Shape};
use ranges::unbroken;

pub fn within(lo: u8, hi: u8, n: u8) -> bool
    ensures { result ≡ within lo hi n }
{
    (lo <= n) & (n <= hi)
}

fn inside(size: u8, a: Shape) -> bool
    ensures { result ≡ inside size a }
{
    a.start as u16 + a.width as u16 <= size as u16
}

fn init_formed(agent: u8, a: Shape) -> bool
    ensures { result ≡ init_formed agent a }
{
    (agent == 0) & ((a.kind == 2) & within(1, MAX_MEMORY, a.width))
}

// A width of 1, 2, 4 or 8; of an sc access one that divides the start: none of the bits below it are in the start, and 255 is 1 less than nothing
// among eight bits. Here and below without a jump: what an event is is hard to foresee.
fn sized(a: Shape) -> bool
    ensures { result ≡ sized a }
{
    let w = a.width;
    let listed = (w == 1) | ((w == 2) | ((w == 4) | (w == 8)));
    let even = a.start as u16 & (w as u16 + 255) == 0;
    listed & (!access::sc(a) | even)
}

fn kind_fits(a: Shape) -> bool
    ensures { result ≡ kind_fits a }
{
    let w = a.width;
    let sc = access::sc(a);
    let access = ((a.kind == 1) | (a.kind == 2)) | ((a.kind == 3) & sc);
    let marker = (a.kind == 4) & (sc & ((a.start == 0) & (w == 0)));
    (access & sized(a)) | marker
}

fn other_formed(agents: u8, agent: u8, a: Shape) -> bool
    ensures { result ≡ other_formed agents agent a }
{
    within(1, agents, agent) & kind_fits(a)
}

fn formed(agents: u8, agent: u8, a: Shape) -> bool
    ensures { result ≡ formed agents agent a }
{
    let mode = a.mode;
    match mode {
        0 => init_formed(agent, a),
        1 => other_formed(agents, agent, a),
        2 => other_formed(agents, agent, a),
        _ => false,
    }
}

// The tear byte: 1 for sc accesses, 0 or 1 for unordered ones that could be tear-free, 0 for all else.
pub fn tear_fits(a: Shape) -> bool
    ensures { result ≡ tear_fits a }
{
    let sc = access::sc(a) & !access::marks(a);
    if sc {
        return a.tear == 1;
    }
    let free = (a.mode == 1) & unbroken(a.width, a.start);
    if free {
        return a.tear <= 1;
    }
    a.tear == 0
}

// By kind and mode, four to a kind, the widths as a set: 1, 2, 4 and 8 for an access, 0 for a marker.
const WIDTHS: [u32; 32] = [
    0, 0, 0, 0, 0, 278, 278, 0, 0, 278, 278, 0, 0, 0, 278, 0, 0, 0, 1, 0, 0, 0, 0, 0, 0, 0, 0, 0,
    0, 0, 0, 0,
];

fn widths(kind: u8, mode: u8) -> u32
    ensures { result ≡ widths_of (kind % 8) (mode % 4) }
{
    WIDTHS[(kind as usize % 8) * 4 + mode as usize % 4]
}

// The kind, mode, width and alignment of an event that is no init: as `kind_fits`, with less to do. A marker's width of 0 lets only the start 0 pass.
fn listed(a: Shape) -> bool
    ensures { result ≡ ((eqb a.mode 1 or eqb a.mode 2) and kind_fits a) }
{
    let w = a.width;
    let small = (a.kind < 8) & ((a.mode < 4) & (w < 32));
    let wide = sets::has(widths(a.kind, a.mode), w as usize);
    let aligned = a.start as u16 & (w as u16 + 255) == 0;
    (small & wide) & (!access::sc(a) | aligned)
}

// An init, but for its tear byte.
pub fn init_alone(h: Head, agent: u8, a: Shape) -> bool
    ensures { result ≡ (inside h.size a and (initial a and init_formed agent a)) }
{
    inside(h.size, a) & (access::initial(a) & init_formed(agent, a))
}

// An event that is no init, but for its tear byte.
pub fn other_alone(h: Head, agent: u8, a: Shape) -> bool
    ensures { result ≡ (inside h.size a and ((eqb a.mode 1 or eqb a.mode 2) and other_formed h.agents agent a)) }
{
    inside(h.size, a) & (listed(a) & within(1, h.agents, agent))
}

// An event, whatever stands before it.
pub fn alone(h: Head, agent: u8, a: Shape) -> bool
    ensures { result ≡ alone h agent a }
{
    inside(h.size, a) & (formed(h.agents, agent, a) & tear_fits(a))
}
