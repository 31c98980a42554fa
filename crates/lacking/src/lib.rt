// What is tested after all fields: whether some event reads (10), and whether a read byte has no row (11).
#![tactic(auto)]

ghost use Rattle.std.specs.Prelude.{◌≡◌, ℕ};
ghost use Rattle.basis.specs.Test.{◌and◌, any, from, non};
ghost use Rattle.format.specs.Shape.{reads};
ghost use Rattle.format.specs.Event.{reads_some};
ghost use Rattle.parse.specs.Parse.{is_row, lowest_lacking};
ghost use Rattle.entries.specs.Entries.{events_in, rows_in, execution};
ghost use Rattle.lacking.specs.Lacking.{lack_of};

use entries::Counts;
use format::{Row, Shape};

// Does some event read?
pub fn some_read(s: &[u8], x: Counts, at: &[u16]) -> bool
    ensures { result ≡ any reads_some (events_in s.now x at.now) }
{
    let n = entries::count(x, at);
    let edition = x.head.edition;
    for p in &at[..n as usize] {
        let hit = access::reads(entries::shape_at(s, edition, *p));
        if hit {
            return true;
        }
    }
    false
}

fn is_row(r: Row, e: u8, n: u16) -> bool
    ensures { result ≡ is_row e n r }
{
    (r.reader == e) & (r.address as u16 == n)
}

// Has byte n of event e a row? The row numbered `hint` is looked at first: in a whole sheet it is the one.
fn has_row(s: &[u8], x: Counts, e: u8, n: u16, hint: u16) -> bool
    ensures { result ≡ any (is_row e n) (rows_in s.now x) }
{
    let rows = x.rows;
    if hint < rows {
        if is_row(entries::row_no(s, x, hint), e, n) {
            return true;
        }
    }
    for j in 0..rows {
        let hit = is_row(entries::row_no(s, x, j), e, n);
        if hit {
            return true;
        }
    }
    false
}

// Is one of the bytes from a start on, as many as a width, without a row of event e?
fn lacks_from(s: &[u8], x: Counts, e: u8, start: u8, width: u8, hint: u16) -> bool
    ensures { result ≡ any (λ (n : ℕ). non (any (is_row e n) (rows_in s.now x))) (from start width) }
{
    for i in 0..width {
        let found = has_row(
            s,
            x,
            e,
            start as u16 + i as u16,
            hint.wrapping_add(i as u16),
        );
        if !found {
            return true;
        }
    }
    false
}

// Has event e, of shape a, a read byte without a row?
fn lacks(s: &[u8], x: Counts, e: u8, a: Shape, hint: u16) -> bool
    ensures { result ≡ (reads a and any (λ (n : ℕ). non (any (is_row e n) (rows_in s.now x))) (from a.start a.width)) }
{
    let seen = access::reads(a);
    if !seen {
        return false;
    }
    lacks_from(s, x, e, a.start, a.width, hint)
}

// The number of the row behind those of an event of shape a, where `hint` is that of its first.
fn past(hint: u16, a: Shape) -> u16 {
    if access::reads(a) {
        return hint.wrapping_add(a.width as u16);
    }
    hint
}

// The lowest event that has a read byte without a row, if there is one.
pub fn lowest_lacking(s: &[u8], x: Counts, at: &[u16]) -> Option<u8>
    ensures { lack_of result ≡ lowest_lacking (execution s.now x at.now) }
{
    let n = entries::count(x, at);
    let mut hint: u16 = 0;
    for e in 0..n {
        let a = entries::shape_at(s, x.head.edition, at[e as usize]);
        let bad = lacks(s, x, e, a, hint);
        if bad {
            return Some(e);
        }
        hint = past(hint, a);
    }
    None
}
