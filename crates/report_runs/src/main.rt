// Prints the report lines of fixed answers, each with its 64-bit number in hexadecimal after it.
#![tactic(auto)]

use answer::{Answer, Names, Settled};
use std::io;
use std::io::Print;

fn show(rt: &HostRuntime, x: Answer, order: &[u8]) -> io::Result<()> {
    let mut out = [0u8; 128];
    let n = report::line(x, order, &mut out);
    rt.write_all(&out[..n])?;
    let word = answer::pack(x);
    println!(rt; "{word:012x}")
}

// A line of 17 bytes into 16 and into 17.
fn short(rt: &HostRuntime) -> io::Result<()> {
    let mut small = [46u8; 16];
    let n = report::line(Answer::Refused(11, 15), b"", &mut small);
    rt.print(n)?;
    rt.write_all(&small)?;
    rt.write_all(b"\n")?;
    let mut enough = [46u8; 17];
    let m = report::line(Answer::Refused(11, 15), b"", &mut enough);
    rt.print(m)?;
    rt.write_all(&enough)
}

fn main(rt: HostRuntime) -> io::Result<()> {
    show(&rt, Answer::Consistent(Settled::Orderly), b"\x00\x01")?;
    show(&rt, Answer::Refused(11, 15), b"")?;
    show(&rt, Answer::Broken(21, Names::Row(1, 0, 0)), b"")?;
    show(&rt, Answer::Broken(24, Names::Between(4, 0, 1, 0)), b"")?;
    show(
        &rt,
        Answer::Consistent(Settled::Unsettled(1, 4)),
        b"\x00\x01\x02\x03\x04",
    )?;
    show(&rt, Answer::Broken(26, Names::Nobody), b"")?;
    show(&rt, Answer::Broken(22, Names::Event(1)), b"")?;
    show(&rt, Answer::Broken(23, Names::Row(1, 2, 0)), b"")?;
    show(&rt, Answer::Broken(25, Names::Torn(3, 1, 2)), b"")?;
    show(
        &rt,
        Answer::Consistent(Settled::Orderly),
        b"\x00\x03\x01\x02\x04\x05\x06",
    )?;
    show(&rt, Answer::Refused(1, 0), b"\x07")?;
    show(&rt, Answer::Refused(9, 4096), b"")?;
    show(&rt, Answer::Refused(255, 4294967295), b"")?;
    show(
        &rt,
        Answer::Broken(24, Names::Between(19, 10, 9, 63)),
        b"\x07",
    )?;
    show(&rt, Answer::Consistent(Settled::Orderly), b"")?;
    show(
        &rt,
        Answer::Consistent(Settled::Unsettled(9, 10)),
        b"\x09\x0a\x63\x64\xff",
    )?;
    short(&rt)
}
