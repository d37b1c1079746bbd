// Reads the accesses to one table from standard input, and prints what the sequencer assigns to each.
#![tactic(auto)]

use std::io::Read;
use tracing::trace::{Stop, Trace};

// A line of the most accesses that can begin, one more, and its line feed.
const MOST_BYTES: u64 = 1_000_002;

fn run(rt: &HostRuntime) -> anyhow::Result<()> {
    let mut line = Vec::new(rt.alloc());
    rt.stdin().take(MOST_BYTES).read_to_end(&mut line)?;
    let trace = Trace::of_line(rt.alloc(), line.as_slice())?;
    rt.println("access,number,next_for_read,next_for_write")?;
    for traced in trace.accesses.iter() {
        rt.println(*traced)?;
    }
    match trace.stop {
        Stop::LineEnd => {}
        stop => rt.println(stop)?,
    }
    Ok(())
}

fn main(rt: HostRuntime) -> anyhow::Result<()> {
    run(&rt)
}

#[cfg(test)]
mod tests {
    use super::*;
    use catalogue::refusal::Refusal;
    use sequencing::mode::Mode;
    use sequencing::sequencer::{Assigned, Begun, Sequencer};
    use std::test::Fail;

    #[test]
    fn two_reads_before_the_last_write(rt: HostRuntime) -> Result<(), Fail> {
        let trace = Trace::of_line(rt.alloc(), b"wwrwrrw")?;
        let last = trace.accesses.last().ok_or("no access")?;
        assert_eq!(rt; last.assigned, Assigned::Write(6));
        Ok(())
    }

    #[test]
    fn nothing_counts_after_an_unknown_letter(rt: HostRuntime) -> Result<(), Fail> {
        let trace = Trace::of_line(rt.alloc(), b"wrxw")?;
        assert_eq!(rt; trace.accesses.len(), 2);
        assert!(rt;
            matches!(
                trace.stop,
                Stop::Unknown {
                    position: 3,
                    byte: b'x'
                }
            )
        );
        Ok(())
    }

    #[test]
    fn a_refused_declaration_counts_nothing(rt: HostRuntime) {
        let mut sequencer = Sequencer::new();
        assert!(rt;
            matches!(
                sequencer.begin(&[Mode::None; 8]),
                Err(Refusal::NothingDeclared)
            )
        );
        assert!(rt;
            matches!(
                sequencer.begin(&[Mode::Read; 8]),
                Ok(Begun { number: 0, .. })
            )
        );
    }
}
