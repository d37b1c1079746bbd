ghost use Rattle.std.specs.Prelude.{◌≡◌, replicate, IfOk, slice_index_or, slice_set};
ghost use Rattle.catalogue.specs.Rows.{blank};
ghost use Rattle.stores.specs.Held.{held, image, beyond, memory_told, memory_reply};

use super::Memory;
use catalogue::refusal::Refusal;
use catalogue::row::{Place, Row};
use std::alloc::{AllocError, Global};

// The rows of one catalogue.
const CATALOGUE: usize = 512;

impl Memory {
    // Memory that is too short is handed back.
    pub fn new(rows: Vec<Row>) -> Result<Memory, (Refusal, Vec<Row>)>
        ensures { memory_told result ≡ memory_reply rows.items }
    {
        if rows.len() < CATALOGUE {
            return Err((Refusal::MemoryTooShort, rows));
        }
        Ok(Memory { rows })
    }

    // Memory for one catalogue, in which every row is zero.
    pub fn zeroed(heap: Global) -> Result<Memory, AllocError>
        ensures { IfOk result (λ m. held m ≡ replicate 512 blank) }
    {
        let rows = Vec::from_slice(heap, &[Row { high: 0, low: 0 }; CATALOGUE])?;
        Ok(Memory { rows })
    }

    pub fn into_rows(self) -> Vec<Row>
        ensures { result.items ≡ held self }
    {
        let Memory { rows } = self;
        rows
    }

    pub(crate) fn row(&self, place: Place) -> Row
        ensures { result ≡ slice_index_or (image self.now) place.index blank }
    {
        self.rows[place.index()]
    }

    // That rows past the 512th stay is of two moments, so that no value holds it, here and where changes are written.
    #[tactic(auto, using(crate::proofs::HeldRows::held_rows))]
    pub(crate) fn set_row(&mut self, place: Place, row: Row)
        ensures image { image self.new ≡ slice_set (image self.old) place.index row }
        ensures beyond { beyond self.new ≡ beyond self.old }
    {
        self.rows[place.index()] = row;
    }
}
