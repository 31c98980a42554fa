// Bytes from standard input, for the programs: no contract can say which bytes they are.
#![tactic(auto)]

ghost use Rattle.stdin_bytes.specs.Reading.{Within};

use std::io::Read;

// A read failed: how many bytes were read before it.
#[derive(Clone, Copy)]
pub struct Cut {
    pub read: usize,
}

// Reads until the buffer is full or the input ends: how many bytes were read. A read that failed is no end.
pub fn read_full(rt: &HostRuntime, buf: &mut [u8]) -> Result<usize, Cut>
    ensures { Within result buf.new }
{
    let mut input = rt.stdin();
    let mut n = 0;
    while n < buf.len() {
        match input.read(&mut buf[n..]) {
            Ok(0) => return Ok(n),
            Ok(more) => n += more,
            Err(_) => return Err(Cut { read: n }),
        }
    }
    Ok(n)
}
