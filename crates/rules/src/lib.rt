// The rules 21 to 24 over the tables, each of which finds the first row or event at fault, and the first broken of 21 to 25.
#![tactic(auto)]

ghost use Rattle.std.specs.Prelude.{◌≡◌, ℕ, ◌%◌, min};
ghost use Rattle.basis.specs.Test.{◌and◌};
ghost use Rattle.sets.specs.Tells.{Tells};
ghost use Rattle.sets.specs.Mask.{slots, mem};
ghost use Rattle.cells.specs.First.{first_some};
ghost use Rattle.tables.specs.Tables.{row_room, writes_in};
ghost use Rattle.torn.specs.Torn.{sources_in, rule25_in};
ghost use Rattle.rules.specs.Rules.{unlike_in, cyclic_in, turned_in, between_in, rule21_in, rule22_in, rule23_in, rule24_in, rest_in, rule_in};
ghost use Rattle.rules.specs.steps.Stirred.{Unlike};

use answer::{Breach, Names};
use format::Row;
use sets::{SLOTS, least};
use tables::{ACCESSES, COLUMNS, ROW_CELLS, ROWS};

// ---- 21, 22, 23

// The first row whose byte seen differs from the byte written. n counts up to the rows that have a place, and so below.
fn unlike(q: &[u8; ROW_CELLS], n: usize) -> Option<usize>
    ensures { result ≡ first_some (unlike_in q.now) (min n row_room) }
{
    (0..least(n, ROWS)).find(|j| rows::seen(q, *j) != rows::wrote(q, *j))
}

// The first event that happens before itself. n counts up to the slots.
fn cyclic(succ: &[u32; SLOTS], n: usize) -> Option<usize>
    ensures { result ≡ first_some (cyclic_in succ.now) (min n slots) }
{
    (0..least(n, SLOTS)).find(|e| sets::has(succ[*e], *e))
}

// The first row whose reader happens before its writer.
fn turned(q: &[u8; ROW_CELLS], n: usize, succ: &[u32; SLOTS]) -> Option<usize>
    ensures { result ≡ first_some (turned_in q.now succ.now) (min n row_room) }
{
    (0..least(n, ROWS)).find(|j| {
        let r = rows::row(q, *j);
        sets::has(succ[r.reader as usize % SLOTS], r.writer as usize)
    })
}

// ---- 24

// Does event v write the flat byte a?
fn writes_byte(t: &[u8; COLUMNS], v: usize, a: u8) -> bool
    ensures { result ≡ writes_in t.now (v % slots) a }
{
    let b = tables::at(t, v, a);
    ranges::covers(b, a) & access::writes(b)
}

// The least member of a set that writes the flat byte.
fn writer_in(t: &[u8; COLUMNS], m: u32, a: u8) -> Option<usize>
    ensures { result ≡ first_some (λ (v : ℕ). mem m v and writes_in t.now v a) slots }
{
    for v in sets::members(m) {
        if writes_byte(t, v, a) {
            return Some(v);
        }
    }
    None
}

// The least event that writes the row's byte after its writer and before its reader: what lies between the two is mostly nothing.
fn between(t: &[u8; COLUMNS], succ: &[u32; SLOTS], pred: &[u32; SLOTS], r: Row) -> Option<usize>
    ensures { result ≡ first_some (between_in t.now succ.now pred.now r) slots }
{
    let after = succ[r.writer as usize % SLOTS];
    let before = pred[r.reader as usize % SLOTS];
    writer_in(t, after & before, r.address)
}

// ---- what may be amiss, noticed without a jump: most sheets break nothing

// Does the byte seen differ from the byte written in some row?
fn differ(q: &[u8; ROW_CELLS], n: usize) -> bool
    ensures { Tells result (Unlike q.now (min n row_room)) }
{
    let m = least(n, ROWS);
    let mut c = 0;
    for j in 0..m {
        c = c | (rows::seen(q, j) ^ rows::wrote(q, j));
    }
    c != 0
}

// ---- the first that is broken

fn rule21(q: &[u8; ROW_CELLS], n: usize) -> Result<(), Breach>
    ensures { result ≡ rule21_in q.now (min n row_room) }
{
    if let Some(j) = unlike(q, n) {
        let r = rows::row(q, j);
        let names = Names::Row(r.reader, r.writer, r.address);
        return Err(Breach { number: 21, names });
    }
    Ok(())
}

fn rule22(succ: &[u32; SLOTS], n: usize) -> Result<(), Breach>
    ensures { result ≡ rule22_in succ.now (min n slots) }
{
    if let Some(e) = cyclic(succ, n) {
        let names = Names::Event(e as u8);
        return Err(Breach { number: 22, names });
    }
    Ok(())
}

fn rule23(q: &[u8; ROW_CELLS], n: usize, succ: &[u32; SLOTS]) -> Result<(), Breach>
    ensures { result ≡ rule23_in q.now (min n row_room) succ.now }
{
    if let Some(j) = turned(q, n, succ) {
        let r = rows::row(q, j);
        let names = Names::Row(r.reader, r.writer, r.address);
        return Err(Breach { number: 23, names });
    }
    Ok(())
}

fn rule24(
    t: &[u8; COLUMNS],
    q: &[u8; ROW_CELLS],
    n: usize,
    succ: &[u32; SLOTS],
    pred: &[u32; SLOTS],
) -> Result<(), Breach>
    ensures { result ≡ rule24_in t.now q.now (min n row_room) succ.now pred.now }
{
    for j in 0..least(n, ROWS) {
        let r = rows::row(q, j);
        if let Some(v) = between(t, succ, pred, r) {
            let names = Names::Between(r.reader, r.writer, v as u8, r.address);
            return Err(Breach { number: 24, names });
        }
    }
    Ok(())
}

// 21 alone: it asks for no happens-before. Most sheets keep it, and one test over all rows tells.
pub fn bytes(q: &[u8; ROW_CELLS], n: usize) -> Result<(), Breach>
    ensures { result ≡ rule21_in q.now (min n row_room) }
{
    if differ(q, n) {
        return rule21(q, n);
    }
    Ok(())
}

// The masks gain the sources that 25 asks for, of the first n rows.
fn sources(t: &[u8; COLUMNS], q: &[u8; ROW_CELLS], n: usize, masks: &mut [u32; ACCESSES])
    ensures { masks.new ≡ sources_in t.now q.now (min n row_room) masks.old }
{
    let m = least(n, ROWS);
    for j in 0..m {
        torn::note_row(t, rows::row(q, j), masks);
    }
}

fn rule25(t: &[u8; COLUMNS], events: usize, q: &[u8; ROW_CELLS], rows: usize) -> Result<(), Breach>
    ensures { result ≡ rule25_in t.now (min events slots) q.now (min rows row_room) }
{
    let mut masks = [0u32; ACCESSES];
    sources(t, q, rows, &mut masks);
    torn::named(&masks, events)
}

// The first rule of 22 to 25 that is broken, each tested over all rows before the next.
pub fn rest(
    t: &[u8; COLUMNS],
    events: usize,
    succ: &[u32; SLOTS],
    pred: &[u32; SLOTS],
    q: &[u8; ROW_CELLS],
    rows: usize,
) -> Result<(), Breach>
    ensures { result ≡ rest_in t.now (min events slots) succ.now pred.now q.now (min rows row_room) }
{
    rule22(succ, events)?;
    rule23(q, rows, succ)?;
    rule24(t, q, rows, succ, pred)?;
    rule25(t, events, q, rows)
}

// The first of 21 to 25.
pub fn first_broken(
    t: &[u8; COLUMNS],
    events: usize,
    succ: &[u32; SLOTS],
    pred: &[u32; SLOTS],
    q: &[u8; ROW_CELLS],
    rows: usize,
) -> Result<(), Breach>
    ensures { result ≡ rule_in t.now (min events slots) succ.now pred.now q.now (min rows row_room) }
{
    bytes(q, rows)?;
    rest(t, events, succ, pred, q, rows)
}
