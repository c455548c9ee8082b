// Stored cases of the planning program: for each sheet in data/ its name and what the planning program writes for it.
#![tactic(auto)]

use std::io::{Read, Write};
use std::{fs, io};

// One sheet.
fn show(rt: &HostRuntime, name: &str) -> io::Result<()> {
    let file = match fs::open(rt, name) {
        Ok(file) => file,
        Err(why) => return eprintln!(rt; "{name}: {why}"),
    };
    let mut sheet = Vec::new(rt.alloc());
    file.take(text::KEPT as u64).read_to_end(&mut sheet)?;
    println!(rt; "{name}")?;
    let mut out = [0u8; text::LONGEST];
    let size = text::program(&sheet, &mut out);
    io::writer(rt).write_all(&out[..size])
}

fn main(rt: HostRuntime) -> io::Result<()> {
    show(&rt, "p1")?;
    show(&rt, "p2")?;
    show(&rt, "no_order")?;
    show(&rt, "loading")?;
    show(&rt, "loading_most")?;
    show(&rt, "rows64")?;
    show(&rt, "one_more")?;
    show(&rt, "two_more")?;
    show(&rt, "three_more")?;
    show(&rt, "long")?;
    show(&rt, "empty")?;
    show(&rt, "short")?;
    show(&rt, "trailing")?;
    show(&rt, "leading_zero")?;
    show(&rt, "malformed_row")?;
    show(&rt, "loading_missing")?;
    show(&rt, "count")?;
    show(&rt, "speeds")?;
    show(&rt, "loading_above")?;
    show(&rt, "release")?;
    show(&rt, "level")?;
    show(&rt, "deadline")?;
    show(&rt, "promise")?;
    show(&rt, "promise_above")?;
    show(&rt, "promise_high")?;
    show(&rt, "promise_missing")?;
    show(&rt, "wait")?;
    show(&rt, "wait_no_order")?;
    show(&rt, "wait_not_lower")?;
    show(&rt, "wait_released_later")?;
    show(&rt, "wait_on_low")?;
    show(&rt, "wait_missing")
}
