ghost use Rattle.std.specs.Prelude.{◌≡◌, ◌≤◌, List, [], ◌∷◌, length};
ghost use Rattle.std.proofs.Common.{lit≤};
ghost use Rattle.catalogue.specs.declared.row.Row.{Row as RowOf};
ghost use Rattle.catalogue.specs.Refusals.{told};
ghost use Rattle.catalogue.specs.Rows.{Lent};
ghost use Rattle.catalogue.specs.Replicated.{Whole, replica_fetch_reply, replica_put_reply, replica_put_after};

use crate::refusal::Refusal;
use crate::row::Row;
use crate::store::Store;

// One to four stores, each of a type of its own, told by their numbers from 0.
pub trait Replicas {
    // What they mean: the catalogue of each.
    ghost catalogues: { Self → List (List RowOf) };

    ghost whole: { (s : Self) → Whole (catalogues s) };

    // What is lent to each.
    ghost lents: { Self → List Lent };

    fn count(&self) -> u32
        ensures { result ≡ length (catalogues self.now) };

    fn fetch(&mut self, replica: u32, table: u32, row: u32) -> Result<Row, Refusal>
        ensures answer { told result ≡ replica_fetch_reply (catalogues self.old) replica table row }
        ensures same { catalogues self.new ≡ catalogues self.old }
        ensures kept { lents self.new ≡ lents self.old };

    fn put(&mut self, replica: u32, table: u32, row: u32, value: Row) -> Result<(), Refusal>
        ensures answer { told result ≡ replica_put_reply (catalogues self.old) replica table row }
        ensures after { catalogues self.new ≡ replica_put_after (catalogues self.old) replica table row value }
        ensures kept { lents self.new ≡ lents self.old };
}

// One impl for each size: no impl is over tuples of every size, and a nest of pairs is not the tuple that a caller has. A store is chosen twice
// in each, since no function may hand out a `dyn Store`.
impl<A: Store> Replicas for (A,) {
    ghost catalogues = { λ s. A.Store.rows s.0 ∷ [] };

    ghost whole = { λ s. record { some = lit≤ tt; few = lit≤ tt; full = (A.Store.full s.0, tt) } };

    ghost lents = { λ s. A.Store.lent s.0 ∷ [] };

    fn count(&self) -> u32 {
        1
    }

    fn fetch(&mut self, replica: u32, table: u32, row: u32) -> Result<Row, Refusal> {
        match replica {
            0 => self.0.fetch(table, row),
            _ => Err(Refusal::UnknownReplica),
        }
    }

    fn put(&mut self, replica: u32, table: u32, row: u32, value: Row) -> Result<(), Refusal> {
        match replica {
            0 => self.0.put(table, row, value),
            _ => Err(Refusal::UnknownReplica),
        }
    }
}

impl<A: Store, B: Store> Replicas for (A, B) {
    ghost catalogues = { λ s. A.Store.rows s.0 ∷ (B.Store.rows s.1 ∷ []) };

    ghost whole = { λ s. record { some = lit≤ tt; few = lit≤ tt; full = (A.Store.full s.0, (B.Store.full s.1, tt)) } };

    ghost lents = { λ s. A.Store.lent s.0 ∷ (B.Store.lent s.1 ∷ []) };

    fn count(&self) -> u32 {
        2
    }

    fn fetch(&mut self, replica: u32, table: u32, row: u32) -> Result<Row, Refusal> {
        match replica {
            0 => self.0.fetch(table, row),
            1 => self.1.fetch(table, row),
            _ => Err(Refusal::UnknownReplica),
        }
    }

    fn put(&mut self, replica: u32, table: u32, row: u32, value: Row) -> Result<(), Refusal> {
        match replica {
            0 => self.0.put(table, row, value),
            1 => self.1.put(table, row, value),
            _ => Err(Refusal::UnknownReplica),
        }
    }
}

impl<A: Store, B: Store, C: Store> Replicas for (A, B, C) {
    ghost catalogues = { λ s. A.Store.rows s.0 ∷ (B.Store.rows s.1 ∷ (C.Store.rows s.2 ∷ [])) };

    ghost whole = { λ s. record { some = lit≤ tt; few = lit≤ tt; full = (A.Store.full s.0, (B.Store.full s.1, (C.Store.full s.2, tt))) } };

    ghost lents = { λ s. A.Store.lent s.0 ∷ (B.Store.lent s.1 ∷ (C.Store.lent s.2 ∷ [])) };

    fn count(&self) -> u32 {
        3
    }

    fn fetch(&mut self, replica: u32, table: u32, row: u32) -> Result<Row, Refusal> {
        match replica {
            0 => self.0.fetch(table, row),
            1 => self.1.fetch(table, row),
            2 => self.2.fetch(table, row),
            _ => Err(Refusal::UnknownReplica),
        }
    }

    fn put(&mut self, replica: u32, table: u32, row: u32, value: Row) -> Result<(), Refusal> {
        match replica {
            0 => self.0.put(table, row, value),
            1 => self.1.put(table, row, value),
            2 => self.2.put(table, row, value),
            _ => Err(Refusal::UnknownReplica),
        }
    }
}

impl<A: Store, B: Store, C: Store, D: Store> Replicas for (A, B, C, D) {
    ghost catalogues = { λ s. A.Store.rows s.0 ∷ (B.Store.rows s.1 ∷ (C.Store.rows s.2 ∷ (D.Store.rows s.3 ∷ []))) };

    ghost whole = { λ s. record { some = lit≤ tt; few = lit≤ tt; full = (A.Store.full s.0, (B.Store.full s.1, (C.Store.full s.2, (D.Store.full s.3, tt)))) } };

    ghost lents = { λ s. A.Store.lent s.0 ∷ (B.Store.lent s.1 ∷ (C.Store.lent s.2 ∷ (D.Store.lent s.3 ∷ []))) };

    fn count(&self) -> u32 {
        4
    }

    fn fetch(&mut self, replica: u32, table: u32, row: u32) -> Result<Row, Refusal> {
        match replica {
            0 => self.0.fetch(table, row),
            1 => self.1.fetch(table, row),
            2 => self.2.fetch(table, row),
            3 => self.3.fetch(table, row),
            _ => Err(Refusal::UnknownReplica),
        }
    }

    fn put(&mut self, replica: u32, table: u32, row: u32, value: Row) -> Result<(), Refusal> {
        match replica {
            0 => self.0.put(table, row, value),
            1 => self.1.put(table, row, value),
            2 => self.2.put(table, row, value),
            3 => self.3.put(table, row, value),
            _ => Err(Refusal::UnknownReplica),
        }
    }
}
