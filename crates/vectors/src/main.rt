// The judge on any number of sheets from standard input, each after its length in two bytes; a line for each. For tests; stdin and stdout are
// the litmus sheets (examples/litmus), made by tests/litmus/make.sh. An input that ends inside a sheet, a read or a write that fails is said on
// standard error.
#![tactic(auto)]

ghost use Rattle.std.specs.Prelude.{◌+◌, ◌<◌, ◌≤◌, length};
ghost use Rattle.format.specs.Limits.{max_bytes};

use std::io::{Print, Read};
use stdin_bytes::read_full;

// A length of two bytes.
fn length_of(high: u8, low: u8) -> usize {
    (high as usize) * 256 + low as usize
}

// How many bytes of a sheet of n are held: one over the longest sheet is too long, as all of them are.
fn held(n: usize) -> usize
    ensures { result ≤ max_bytes + 1 }
{
    if n < tell::SHEET_BYTES {
        n
    } else {
        tell::SHEET_BYTES
    }
}

// A line on standard error; where that is closed too there is nobody to tell.
fn say(rt: &HostRuntime, line: &[u8]) {
    let _ = rt.stderr().write_all(line).is_ok();
}

// The judge's answer on a sheet, as a line.
fn told(rt: &HostRuntime, s: &[u8]) {
    let mut scratch = [0u8; tell::SCRATCH_BYTES];
    let mut order = [tell::UNUSED; tell::ORDER_BYTES];
    let mut out = [0u8; tell::LINE_BYTES];
    let k = tell::tell(s, &mut scratch, &mut order, &mut out);
    if rt.write_all(&out[..k]).is_err() {
        say(rt, b"vectors: a line could not be written\n");
    }
}

// Says that a sheet is not whole.
fn cut(rt: &HostRuntime) {
    say(
        rt,
        b"vectors: the input ends inside a sheet, or a read failed\n",
    );
}

// After a read of less than a length: says so, unless this is the plain end of the input. A read that failed fails again.
fn ended(rt: &HostRuntime, got: usize) {
    let mut next = [0u8; 1];
    if got != 0 {
        cut(rt);
        return;
    }
    if rt.stdin().read(&mut next).is_err() {
        cut(rt);
    }
}

// Passes over what is not held of a sheet of n bytes; false where the input ends before.
fn passed(rt: &HostRuntime, n: usize) -> bool {
    let mut next = [0u8; 1];
    for _ in tell::SHEET_BYTES..n {
        if read_full(rt, &mut next).unwrap_or_else(|cut| cut.read) == 0 {
            return false;
        }
    }
    true
}

// The next sheet, of n bytes, k of them held; false where the input ends before.
fn sheet_of(rt: &HostRuntime, space: &mut [u8], n: usize, k: usize) -> bool
    requires { k ≤ length space.old }
{
    let part = &mut space[..k];
    let got = read_full(rt, part).unwrap_or_else(|cut| cut.read);
    if got < k {
        cut(rt);
        return false;
    }
    if !passed(rt, n) {
        cut(rt);
        return false;
    }
    told(rt, part);
    true
}

// One sheet: read and reported; false where the input ends.
fn one(rt: &HostRuntime, space: &mut [u8]) -> bool
    requires { max_bytes < length space.old }
{
    let mut head = [0u8; 2];
    let got = read_full(rt, &mut head).unwrap_or_else(|cut| cut.read);
    if got < 2 {
        ended(rt, got);
        return false;
    }
    let n = length_of(head[0], head[1]);
    sheet_of(rt, space, n, held(n))
}

fn all(rt: &HostRuntime, space: &mut [u8])
    requires { max_bytes < length space.old }
{
    for _ in 0..1000000usize {
        if !one(rt, space) {
            return;
        }
    }
}

fn main(rt: HostRuntime) {
    let mut space = [0u8; tell::SHEET_BYTES];
    all(&rt, &mut space);
}
