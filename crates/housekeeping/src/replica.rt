// Replicas at work, each at its own speed.
use crate::studio::{MOST_OPERATIONS, Studio};
use catalogue::replicas::Replicas;

impl<R: Replicas> Studio<'_, R> {
    // One operation of the transaction.
    pub(crate) fn work(&mut self, number: u32, replica: u32) -> anyhow::Result<()> {
        match self.cluster.step(number, replica) {
            Ok(()) => println!(self.rt;
                "  replica {replica} executes an operation of transaction {number}"
            )?,
            Err(refusal) => {
                let refusal = refusal.number();
                println!(self.rt;
                    "  replica {replica} cannot step transaction {number}: {refusal}"
                )?
            }
        }
        Ok(())
    }

    // All that waits there of the transaction.
    pub(crate) fn catch_up(&mut self, number: u32, replica: u32) -> anyhow::Result<()> {
        let executed = (0..MOST_OPERATIONS)
            .take_while(|_| self.cluster.step(number, replica).is_ok())
            .count();
        println!(self.rt;
            "  replica {replica} catches up with transaction {number}: {executed} executed"
        )?;
        Ok(())
    }
}
