// The report line of an answer up to where the order begins: fixed words and decimal numbers, as bytes into a lent buffer. No function has a
// `requires`.
#![tactic(auto)]

ghost use Rattle.puts.specs.Numbers.{numbered};
ghost use Rattle.line_head.specs.Head.{name_text, names_text, refused_text, broken_text, settled_text, head_of};
ghost use Rattle.line_head.specs.Within.{PutsWithin};

use answer::{Answer, Four, Names, Settled};

// Each `put_` function writes at `at` and answers the place after what it wrote; what has no place is not written. How long a piece can be is said too:
// a number of 32 bits takes at most 11 bytes with its space, and the head of a line at most 64.
fn put_number(out: &mut [u8], at: usize, n: u32) -> usize
    ensures { PutsWithin 11 (numbered n) at result out.old out.new }
{
    puts::put_spaced(out, at, n)
}

fn put_name(out: &mut [u8], at: usize, n: Option<u8>) -> usize
    ensures { PutsWithin 11 (name_text n) at result out.old out.new }
{
    match n {
        Some(k) => put_number(out, at, k as u32),
        None => puts::put_bytes(out, at, b" -"),
    }
}

fn put_names(out: &mut [u8], at: usize, f: Four) -> usize
    ensures { PutsWithin 44 (names_text f) at result out.old out.new }
{
    let Four(first, second, third, fourth) = f;
    let a = put_name(out, at, first);
    let b = put_name(out, a, second);
    let c = put_name(out, b, third);
    put_name(out, c, fourth)
}

fn put_settled(out: &mut [u8], s: Settled) -> usize
    ensures { PutsWithin 64 (settled_text s) 0 result out.old out.new }
{
    match s {
        Settled::Orderly => puts::put_bytes(out, 0, b"consistent orderly then"),
        Settled::Unsettled(e, d) => {
            let a = puts::put_bytes(out, 0, b"consistent unsettled");
            let b = put_number(out, a, e as u32);
            let c = put_number(out, b, d as u32);
            puts::put_bytes(out, c, b" then")
        }
    }
}

fn put_refused(out: &mut [u8], n: u8, p: u32) -> usize
    ensures { PutsWithin 64 (refused_text n p) 0 result out.old out.new }
{
    let a = puts::put_bytes(out, 0, b"refused");
    let b = put_number(out, a, n as u32);
    let c = puts::put_bytes(out, b, b" at");
    put_number(out, c, p)
}

fn put_broken(out: &mut [u8], n: u8, names: Names) -> usize
    ensures { PutsWithin 64 (broken_text n names) 0 result out.old out.new }
{
    let a = puts::put_bytes(out, 0, b"broken");
    let b = put_number(out, a, n as u32);
    put_names(out, b, answer::names_of(names))
}

// The line up to where the order begins.
pub fn put_head(out: &mut [u8], x: Answer) -> usize
    ensures { PutsWithin 64 (head_of x) 0 result out.old out.new }
{
    match x {
        Answer::Refused(n, p) => put_refused(out, n, p),
        Answer::Broken(n, names) => put_broken(out, n, names),
        Answer::Consistent(s) => put_settled(out, s),
    }
}
