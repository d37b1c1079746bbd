// How the studio's clients begin their transactions, write in them, and end them.
use crate::studio::{CLASS, Client, Shown, Studio, Table, needed};
use anyhow::anyhow;
use catalogue::replicas::Replicas;
use client::declaration::{Access, Declaration};
use client::ticket::{NotAborted, Ticket};
use versioning::family::Family;

impl<R: Replicas> Studio<'_, R> {
    // Declares both tables, and begins.
    pub(crate) fn begin(
        &mut self,
        client: Client,
        tapes: Access,
        copies: Access,
    ) -> anyhow::Result<Ticket> {
        let mut declaration = Declaration::new();
        needed(declaration.add(Table::Tapes as u32, tapes))?;
        needed(declaration.add(Table::Copies as u32, copies))?;
        let Ok(ticket) = Ticket::begin(self.cluster, declaration) else {
            return Err(anyhow!("no transaction could begin"));
        };
        let number = ticket.number();
        let tapes = Shown(tapes);
        let copies = Shown(copies);
        match println!(self.rt;
            "{client} begins transaction {number}, {tapes} tapes and {copies} copies"
        ) {
            Ok(()) => Ok(ticket),
            Err(error) => {
                self.give_up(ticket);
                Err(error.into())
            }
        }
    }

    // Writes the tape's row of the table.
    pub(crate) fn write<F: Family>(
        &mut self,
        ticket: &Ticket,
        table: Table,
        tape: u32,
        value: F,
    ) -> anyhow::Result<()> {
        needed(ticket.write_as(self.cluster, table as u32, tape, value, CLASS))
    }

    // Past recall a transaction can only be committed. One arm for both other answers, or an `if let`, would let a ticket go for
    // all that the check sees.
    fn give_up(&mut self, ticket: Ticket) {
        match ticket.abort(self.cluster) {
            Ok(()) => {}
            Err(NotAborted::Refused(_)) => {}
            Err(NotAborted::PastRecall(ticket)) => {
                let _ = ticket.commit(self.cluster);
            }
        }
    }

    // Commits where the work was done, else aborts: either way the ticket is spent.
    pub(crate) fn end(
        &mut self,
        client: Client,
        ticket: Ticket,
        done: anyhow::Result<()>,
    ) -> anyhow::Result<()> {
        match done {
            Ok(()) => {
                needed(ticket.commit(self.cluster))?;
                println!(self.rt; "{client} commits")?;
                Ok(())
            }
            Err(error) => {
                self.give_up(ticket);
                Err(error)
            }
        }
    }
}
