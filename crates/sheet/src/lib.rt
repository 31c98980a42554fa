// The reader of sheets: any bytes become a refusal, by what is wrong and where, or a whole sheet. The types that it hands over.
#![tactic(auto)]

use entries::Counts;
use faults::Fault;
use sets::SLOTS;
use spot::Tally;

pub mod reader;

// Why a sheet is refused, and the place in it.
#[derive(Clone, Copy)]
pub struct Refusal {
    pub fault: Fault,
    pub place: u32,
}

// How far the fields go: to a fault or to the end; with the last tag, the counts and the tally. The counts stand beside the answer and not in it: of an
// enum whose cases lie over each other the compiler keeps them in memory.
#[derive(Clone, Copy)]
pub struct Scan {
    pub end: Result<(), Refusal>,
    pub last: u8,
    pub x: Counts,
    pub t: Tally,
}

// A whole sheet: its counts, and the place of each event's tag.
#[derive(Clone, Copy)]
pub struct Whole {
    pub counts: Counts,
    pub at: [u16; SLOTS],
}
