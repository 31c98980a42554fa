// The program of 01: one sheet from standard input, one line out. Where a read or the write fails it says so on standard error, and where a read
// failed there is no line. A program of the toolchain has no exit status of its own: the script ./verdict makes one of it.
#![tactic(auto)]

ghost use Rattle.std.specs.Prelude.{◌<◌, length};
ghost use Rattle.format.specs.Limits.{max_bytes};
ghost use Rattle.stdin_bytes.specs.Reading.{Within};
ghost use Rattle.tell.specs.Demands.{Enough, Line};

use std::io::Print;
use stdin_bytes::{Cut, read_full};

// Reads standard input until the buffer is full or the input ends. A buffer that is no longer than the longest sheet would take a longer one for it: so it asks.
fn read_sheet(rt: &HostRuntime, buf: &mut [u8]) -> Result<usize, Cut>
    requires { max_bytes < length buf.old }
    ensures { Within result buf.new }
{
    read_full(rt, buf)
}

// A line on standard error; where that is closed too there is nobody to tell.
fn say(rt: &HostRuntime, line: &[u8]) {
    let _ = rt.stderr().write_all(line).is_ok();
}

// Writes the sheet's line out, and nothing else: that it is the sheet's is asked.
fn print(rt: &HostRuntime, sheet: &[u8], line: &[u8])
    requires { Line sheet.now line.now }
{
    if rt.write_all(line).is_err() {
        say(
            rt,
            b"verdict: the line could not be written: see that standard output is open and has room\n",
        );
    }
}

// Judges the sheet in buffers that are enough for every sheet, and prints its line.
fn answer(rt: &HostRuntime, sheet: &[u8], scratch: &mut [u8], order: &mut [u8], out: &mut [u8])
    requires { Enough scratch.old order.old out.old }
{
    let n = tell::tell(sheet, scratch, order, out);
    print(rt, sheet, &out[..n]);
}

// Lends the buffers.
fn judge(rt: &HostRuntime, sheet: &[u8]) {
    let mut scratch = [0u8; tell::SCRATCH_BYTES];
    let mut order = [tell::UNUSED; tell::ORDER_BYTES];
    let mut out = [0u8; tell::LINE_BYTES];
    answer(rt, sheet, &mut scratch, &mut order, &mut out);
}

// Says that a read failed.
fn unread(rt: &HostRuntime) {
    say(
        rt,
        b"verdict: standard input could not be read, and nothing was judged: give a sheet, as ./verdict FILE\n",
    );
}

// Reads the sheet and judges it; where a read fails nothing is judged.
fn run(rt: &HostRuntime, buf: &mut [u8])
    requires { max_bytes < length buf.old }
{
    match read_sheet(rt, buf) {
        Ok(n) => judge(rt, &buf[..n]),
        Err(_) => unread(rt),
    }
}

fn main(rt: HostRuntime) {
    let mut sheet = [0u8; tell::SHEET_BYTES];
    run(&rt, &mut sheet);
}
