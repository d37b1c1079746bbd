// Runs the sheets that are named as arguments, and compares what is printed for each with what is stored beside it.
#![tactic(auto)]

use report::running::run_sheet;
use std::{env, fs};

fn compare(rt: &HostRuntime, name: &str) -> anyhow::Result<()> {
    let heap = rt.alloc();
    let sheet = fs::read(rt, format!(in heap; "{name}.sheet")?.as_str())?;
    let stored = fs::read_to_string(rt, format!(in heap; "{name}.out")?.as_str())?;
    let text = String::from_utf8(run_sheet(heap, sheet.as_slice())?)?;
    let lines = text.as_str().lines().count();
    if text.as_bytes() == stored.as_bytes() {
        println!(rt; "{name}: {lines} lines, as stored")?;
    } else {
        println!(rt; "{name}: not as stored, but")?;
        rt.print(text.as_str())?;
    }
    Ok(())
}

fn run(rt: &HostRuntime) -> anyhow::Result<()> {
    for name in env::args(rt)?.skip(1) {
        compare(rt, name.as_str())?;
    }
    Ok(())
}

fn main(rt: HostRuntime) -> anyhow::Result<()> {
    run(&rt)
}
