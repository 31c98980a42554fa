// A sheet and a lent list of event numbers (02 §5): the sheet's own refusal or broken rule first, then what is said of the list. No scratch and no
// order buffer.
#![tactic(auto)]

ghost use Rattle.std.specs.Prelude.{◌≡◌, List, ℕ, replicate};
ghost use Rattle.tables.specs.Tables.{columns, row_cells};
ghost use Rattle.sheet.specs.Filled.{FilledWhole};
ghost use Rattle.log_check.specs.Checked.{Checked};
ghost use Rattle.answer.specs.Word.{word};
ghost use Rattle.log_check.specs.Word.{fault_number, fault_rest, said_word, checked_word};

use answer::Names;
use entries::Counts;
use log_order::Fault;
use sets::SLOTS;
use tables::{COLUMNS, ROW_CELLS};

#[derive(Clone, Copy)]
pub enum Reply {
    // the refusal's number, and the place
    Refused(u8, u32),
    // the rule's number, 21 to 25, and whom it names
    Broken(u8, Names),
    Listed(Result<(), Fault>),
}

// A whole sheet and its tables: the first broken rule of 21 to 25, or what is said of the list.
fn weigh(s: &[u8], x: Counts, t: &[u8; COLUMNS], q: &[u8; ROW_CELLS], list: &[u8]) -> Reply
    requires { (at : List ℕ) × FilledWhole s.now x at (replicate columns 0) t.now (replicate row_cells 0) q.now }
    ensures { Checked s.now list.now result }
{
    let events = x.events as usize;
    let rows = x.rows as usize;
    let mut succ = [0u32; SLOTS];
    let mut pred = [0u32; SLOTS];
    let rule = prepare::rule(s, x, t, q, &mut succ, &mut pred);
    match rule {
        Err(broken) => Reply::Broken(broken.number, broken.names),
        Ok(()) => Reply::Listed(log_order::check(events, t, &succ, &pred, q, rows, list)),
    }
}

// Holds a list against a sheet.
pub fn check(s: &[u8], list: &[u8]) -> Reply
    ensures { Checked s.now list.now result }
{
    let mut at = [0u16; SLOTS];
    let mut t = [0u8; COLUMNS];
    let mut q = [0u8; ROW_CELLS];
    match sheet::reader::fill(s, &mut at, &mut t, &mut q) {
        Ok(x) => weigh(s, x, &t, &q, list),
        Err(r) => Reply::Refused(r.fault.number(), r.place),
    }
}

// 1 wrong length, 2 a bad number, 3 too early, 4 barred
fn fault_word(f: Fault) -> u64
    ensures { result ≡ word 7 (fault_number f) (fault_rest f) }
{
    match f {
        Fault::WrongLength(n) => answer::word(7, 1, n),
        Fault::BadNumber(i) => answer::word(7, 2, i as u32),
        Fault::TooEarly(i) => answer::word(7, 3, i as u32),
        Fault::Barred(r, w, v, a) => answer::word(
            7,
            4,
            answer::four_bytes(answer::names_of(Names::Between(r, w, v, a))),
        ),
    }
}

fn said_word(s: Result<(), Fault>) -> u64
    ensures { result ≡ said_word s }
{
    match s {
        Ok(()) => answer::word(6, 0, 0),
        Err(f) => fault_word(f),
    }
}

// The number that the suite's harness gets. A refusal and a broken rule have the judge's own words; they are made here of their parts, as
// `answer::pack`, with one caller, is put in place in the judge.
pub fn pack(x: Reply) -> u64
    ensures { result ≡ checked_word x }
{
    match x {
        Reply::Refused(number, place) => answer::word(1, number, place),
        Reply::Broken(number, names) => {
            answer::word(2, number, answer::four_bytes(answer::names_of(names)))
        }
        Reply::Listed(s) => said_word(s),
    }
}
