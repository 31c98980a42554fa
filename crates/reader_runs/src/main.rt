// The reader on any number of sheets from standard input, each after its length in two bytes; a line for each: the refusal, or 'read' with the
// agents, the memory size, the inits, the events, the rows and the pairs. A test; stdin and stdout come from tests/reader.
#![tactic(auto)]

ghost use Rattle.std.specs.Prelude.{◌≤◌, ◌<◌, length};
ghost use Rattle.format.specs.Limits.{max_bytes};

use format::MAX_BYTES;
use std::io;
use std::io::Print;
use stdin_bytes::read_full;

// The longest sheet that is read, one over the longest that there is: what is longer is no test of this program's.
const SPACE: usize = MAX_BYTES + 1;

// A length of two bytes.
fn length_of(high: u8, low: u8) -> usize {
    (high as usize) * 256 + low as usize
}

fn number(rt: &HostRuntime, n: u64) -> io::Result<()> {
    rt.write_all(b" ")?;
    rt.print(n)
}

// The reader's outcome on a sheet, as a line.
fn told(rt: &HostRuntime, s: &[u8]) -> io::Result<()> {
    match sheet::reader::read(s) {
        Ok(w) => {
            let x = w.counts;
            rt.write_all(b"read")?;
            number(rt, x.head.agents as u64)?;
            number(rt, x.head.size as u64)?;
            number(rt, x.inits as u64)?;
            number(rt, x.events as u64)?;
            number(rt, x.rows as u64)?;
            number(rt, x.pairs as u64)?;
        }
        Err(r) => {
            rt.write_all(b"refused")?;
            number(rt, r.fault.number() as u64)?;
            rt.write_all(b" at")?;
            number(rt, r.place as u64)?;
        }
    }
    rt.write_all(b"\n")
}

// The next n bytes of the input as a sheet; false where the input ends before.
fn sheet_of(rt: &HostRuntime, space: &mut [u8], n: usize) -> io::Result<bool>
    requires { n ≤ length space.old }
{
    let part = &mut space[..n];
    let k = read_full(rt, part).unwrap_or_else(|cut| cut.read);
    if k < n {
        return Ok(false);
    }
    told(rt, part)?;
    Ok(true)
}

// One sheet: read and reported; false where the input ends.
fn one(rt: &HostRuntime, space: &mut [u8]) -> io::Result<bool>
    requires { max_bytes < length space.old }
{
    let mut head = [0u8; 2];
    let got = read_full(rt, &mut head).unwrap_or_else(|cut| cut.read);
    if got < 2 {
        return Ok(false);
    }
    let n = length_of(head[0], head[1]);
    if SPACE < n {
        rt.stderr().write_all(
            b"reader_runs: a sheet of more than 4,097 bytes; nothing behind it is read\n",
        )?;
        return Ok(false);
    }
    sheet_of(rt, space, n)
}

fn all(rt: &HostRuntime, space: &mut [u8]) -> io::Result<()>
    requires { max_bytes < length space.old }
{
    for _ in 0..1000000usize {
        if !one(rt, space)? {
            return Ok(());
        }
    }
    Ok(())
}

fn main(rt: HostRuntime) -> io::Result<()> {
    let mut space = [0u8; SPACE];
    all(&rt, &mut space)
}
