// The answer of a judged sheet, and its 64-bit number for the suite's harness.
#![tactic(auto)]

ghost use Rattle.std.specs.Prelude.{◌≡◌};
ghost use Rattle.answer.specs.Number.{settled_number};
ghost use Rattle.answer.specs.NameOf.{names_of, pair_of};
ghost use Rattle.answer.specs.Word.{byte_of, four_bytes, packed};
ghost use Rattle.answer.specs.Word.{word};

// The names of a broken rule: a case for each rule's row of the table, with no number for "none".
#[derive(Clone, Copy)]
pub enum Names {
    // 21, 23: reader, writer, address
    Row(u8, u8, u8),
    // 22: the event
    Event(u8),
    // 24: reader, writer, the write between, address
    Between(u8, u8, u8, u8),
    // 25: reader, writer, a second writer
    Torn(u8, u8, u8),
    // 26
    Nobody,
}

// A broken rule: its number, and its names.
#[derive(Clone, Copy)]
pub struct Breach {
    pub number: u8,
    pub names: Names,
}

// Whether a consistent sheet has an unsettled pair, and the lowest. No Option: the cases are the report's words, and most theorems speak of them.
#[derive(Clone, Copy)]
pub enum Settled {
    Orderly,
    Unsettled(u8, u8),
}

// Refusals and rules stand by number, as the line and the word have them and the theorems of crate `model`; what is wrong with a sheet has a name in `faults::Fault`.
#[derive(Clone, Copy)]
pub enum Answer {
    // the refusal's number, and the place
    Refused(u8, u32),
    // the rule's number, and whom it names
    Broken(u8, Names),
    Consistent(Settled),
}

// The four places of an answer's names, in the order of the line and of the word; a place can be empty.
#[derive(Clone, Copy)]
pub struct Four(
    pub Option<u8>,
    pub Option<u8>,
    pub Option<u8>,
    pub Option<u8>,
);

// The names of a broken rule, each in its place.
pub fn names_of(n: Names) -> Four
    ensures { result ≡ names_of n }
{
    match n {
        Names::Row(r, w, a) => Four(Some(r), Some(w), None, Some(a)),
        Names::Event(e) => Four(Some(e), None, None, None),
        Names::Between(r, w, v, a) => Four(Some(r), Some(w), Some(v), Some(a)),
        Names::Torn(r, w, v) => Four(Some(r), Some(w), Some(v), None),
        Names::Nobody => Four(None, None, None, None),
    }
}

// 0 orderly, 1 unsettled
fn settled_number(s: Settled) -> u8
    ensures { result ≡ settled_number s }
{
    match s {
        Settled::Orderly => 0,
        Settled::Unsettled(_, _) => 1,
    }
}

// The unsettled pair in the first two places.
fn pair_of(s: Settled) -> Four
    ensures { result ≡ pair_of s }
{
    match s {
        Settled::Orderly => Four(None, None, None, None),
        Settled::Unsettled(e, d) => Four(Some(e), Some(d), None, None),
    }
}

// What stands for an empty place in the word.
const NOBODY: u8 = 255;

// A name as a byte of the word.
fn byte_of(n: Option<u8>) -> u8
    ensures { result ≡ byte_of n }
{
    n.unwrap_or(NOBODY)
}

// Four names as bytes, the first most significant.
pub fn four_bytes(f: Four) -> u32
    ensures { result ≡ four_bytes f }
{
    let Four(first, second, third, fourth) = f;
    u32::from_be_bytes([
        byte_of(first),
        byte_of(second),
        byte_of(third),
        byte_of(fourth),
    ])
}

// kind * 2^40 + number * 2^32 + rest: the word of every entry
pub fn word(kind: u8, number: u8, rest: u32) -> u64
    ensures { result ≡ word kind number rest }
{
    kind as u64 * (1 << 40) + number as u64 * (1 << 32) + rest as u64
}

// The number that the suite's harness gets.
pub fn pack(x: Answer) -> u64
    ensures { result ≡ packed x }
{
    match x {
        Answer::Refused(number, place) => word(1, number, place),
        Answer::Broken(number, names) => word(2, number, four_bytes(names_of(names))),
        Answer::Consistent(s) => word(3, settled_number(s), four_bytes(pair_of(s))),
    }
}
