// The client that copies the poster to a tape and writes what its checksum said.
use crate::studio::{Client, POSTER, Shown, Studio, Table};
use crate::verdict::Verdict;
use catalogue::kind::tape::Tape;
use catalogue::replicas::Replicas;
use client::declaration::Access;
use client::ticket::Ticket;

impl<R: Replicas> Studio<'_, R> {
    fn write_copy(
        &mut self,
        ticket: &Ticket,
        tape: u32,
        holds: Tape,
        verdict: Verdict,
    ) -> anyhow::Result<()> {
        self.write(ticket, Table::Tapes, tape, holds)?;
        println!(self.rt; "backup writes: tape {tape} is {}", Shown(holds))?;
        self.write(ticket, Table::Copies, tape, verdict)?;
        println!(self.rt; "backup writes: the copy on tape {tape}, {verdict}")?;
        Ok(())
    }

    pub(crate) fn copy_poster(
        &mut self,
        tape: u32,
        day: u32,
        verdict: Verdict,
    ) -> anyhow::Result<()> {
        let ticket = self.begin(Client::Backup, Access::Write, Access::Write)?;
        let holds = Tape::Holding {
            job: POSTER,
            since: day,
        };
        let written = self.write_copy(&ticket, tape, holds, verdict);
        self.end(Client::Backup, ticket, written)
    }
}
