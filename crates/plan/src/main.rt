// The planning program: a sheet from standard input, the text of its plan to standard output.
#![tactic(auto)]

use std::io;
use std::io::{Read, Write};

fn main(rt: HostRuntime) -> io::Result<()> {
    let mut sheet = Vec::new(rt.alloc());
    rt.stdin().take(text::KEPT as u64).read_to_end(&mut sheet)?;
    let mut out = [0u8; text::LONGEST];
    let size = text::program(&sheet, &mut out);
    io::writer(&rt).write_all(&out[..size])
}
