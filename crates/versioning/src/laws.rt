// What holds of the machine. Each function carries one statement in its contract, and does nothing.
ghost use Rattle.versioning.specs.Examples.{WorkedExamples};
ghost use Rattle.versioning.specs.Machine.{AlwaysReadsLeastLoaded};
ghost use Rattle.versioning.specs.Serial.{SerialOrder, OldestNeverHeldBack, AlwaysCatchesUp};

use crate::family::Family;

// A read goes to the least loaded replica that qualifies, of equals the lowest, and is refused with 13 exactly when none does.
pub fn reads_go_to_the_least_loaded()
    ensures { AlwaysReadsLeastLoaded }
{}

// The answers of every run, and the rows that it ends with, are those of the serial run.
pub fn serial_order<F: Family>()
    ensures { SerialOrder F.Family.packed F.Family.unpacked }
{}

// The oldest transaction unfinished at a replica is never held back there, so that once none is open every replica can be emptied.
pub fn replicas_catch_up<F: Family>()
    ensures oldest { OldestNeverHeldBack F.Family.packed F.Family.unpacked }
    ensures emptied { AlwaysCatchesUp F.Family.packed F.Family.unpacked }
{}

// Runs of some dozen calls, computed by the definitions.
pub fn worked_examples()
    ensures { WorkedExamples }
{}
