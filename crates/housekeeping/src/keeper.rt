// Housekeeping: the client that may free the old tape, once a newer copy has passed.
ghost use Rattle.std.specs.Prelude.{◌≡◌};
ghost use Rattle.housekeeping.specs.Verdicts.{freed_by};

use crate::studio::{Client, MOST_OPERATIONS, OLD_TAPE, Shown, Studio, Table, needed};
use crate::verdict::Verdict;
use anyhow::anyhow;
use catalogue::kind::tape::Tape;
use catalogue::refusal::Refusal;
use catalogue::replicas::Replicas;
use client::declaration::Access;
use client::ticket::Ticket;

// The newer copy that is in question: its tape, the transaction that wrote it, and the replica that works meanwhile.
#[derive(Clone, Copy)]
pub struct Question {
    pub tape: u32,
    pub writer: u32,
    pub replica: u32,
}

// What becomes of the old tape: it is freed only where the newer copy has passed.
fn freed(verdict: Verdict, day: u32) -> Option<Tape>
    ensures { result ≡ freed_by verdict day }
{
    match verdict {
        Verdict::Unchecked | Verdict::Failed => None,
        Verdict::Passed => Some(Tape::Reusable { from: day }),
    }
}

impl<R: Replicas> Studio<'_, R> {
    // The verdict on the copy; nothing while no replica can tell.
    fn ask(&mut self, ticket: &Ticket, tape: u32) -> anyhow::Result<Option<Verdict>> {
        match ticket.read_as::<R, Verdict>(self.cluster, Table::Copies as u32, tape, ()) {
            Ok((verdict, replica)) => {
                println!(self.rt;
                    "housekeeping reads: the copy on tape {tape}, {verdict}, from replica {replica}"
                )?;
                Ok(Some(verdict))
            }
            Err(Refusal::NoReplicaQualifies) => {
                println!(self.rt;
                    "housekeeping asks for the copy on tape {tape}: no replica can tell yet"
                )?;
                Ok(None)
            }
            Err(_) => Err(anyhow!("the copy cannot be read")),
        }
    }

    // Asks until a replica can tell, which one of them comes to as it works.
    fn await_verdict(&mut self, ticket: &Ticket, question: Question) -> anyhow::Result<Verdict> {
        for _ in 0..MOST_OPERATIONS {
            if let Some(verdict) = self.ask(ticket, question.tape)? {
                return Ok(verdict);
            }
            self.work(question.writer, question.replica)?;
        }
        Err(anyhow!("no replica came to tell"))
    }

    // What the old tape may be used for.
    fn read_old_tape(&mut self, ticket: &Ticket) -> anyhow::Result<()> {
        let read = ticket.read_as::<R, Tape>(self.cluster, Table::Tapes as u32, OLD_TAPE, ());
        let (old, replica) = needed(read)?;
        let shown = Shown(old);
        println!(self.rt;
            "housekeeping reads: tape {OLD_TAPE} is {shown}, from replica {replica}"
        )?;
        Ok(())
    }

    fn decide(&mut self, ticket: &Ticket, question: Question, day: u32) -> anyhow::Result<()> {
        let verdict = self.await_verdict(ticket, question)?;
        self.read_old_tape(ticket)?;
        match freed(verdict, day) {
            None => println!(self.rt; "housekeeping keeps tape {OLD_TAPE}")?,
            Some(tape) => {
                self.write(ticket, Table::Tapes, OLD_TAPE, tape)?;
                println!(self.rt; "housekeeping writes: tape {OLD_TAPE} is {}", Shown(tape))?;
            }
        }
        Ok(())
    }

    pub(crate) fn keep_house(&mut self, question: Question, day: u32) -> anyhow::Result<()> {
        let ticket = self.begin(Client::Housekeeping, Access::Write, Access::Read)?;
        let decided = self.decide(&ticket, question, day);
        self.end(Client::Housekeeping, ticket, decided)
    }

    // Looks at the old tape, and changes nothing.
    pub(crate) fn look(&mut self) -> anyhow::Result<()> {
        let ticket = self.begin(Client::Housekeeping, Access::Read, Access::Read)?;
        let seen = self.read_old_tape(&ticket);
        self.end(Client::Housekeeping, ticket, seen)
    }
}
