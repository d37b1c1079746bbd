ghost use Rattle.client.specs.Tickets.{StaysGood};

use versioning::family::Family;

// A ticket stays good under every call, its own and those of others, but the end of its own transaction.
pub fn tickets_stay_good<F: Family>()
    ensures { StaysGood F.Family.packed F.Family.unpacked }
{}
