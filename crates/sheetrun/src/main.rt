// Reads a run sheet from standard input, runs it, and prints what became of each line.
#![tactic(auto)]

use report::running::run_sheet;
use std::io::{Read, Write};

// One byte more than a sheet may have, so that a longer one is refused.
const MOST_BYTES: u64 = 65_537;

fn run(rt: &HostRuntime) -> anyhow::Result<()> {
    let mut sheet = Vec::new(rt.alloc());
    rt.stdin().take(MOST_BYTES).read_to_end(&mut sheet)?;
    let text = run_sheet(rt.alloc(), sheet.as_slice())?;
    rt.stdout().write_all(text.as_slice())?;
    Ok(())
}

fn main(rt: HostRuntime) -> anyhow::Result<()> {
    run(&rt)
}
