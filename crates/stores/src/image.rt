ghost use Rattle.std.specs.Prelude.{◌≡◌};
ghost use Rattle.stores.specs.Held.{image, image_full, lent_by};

use crate::memory::Memory;
use catalogue::refusal::Refusal;
use catalogue::row::{Row, place_of};
use catalogue::store::Store;

// A store that lies in lent memory, row for row.
#[derive(Drop)]
pub struct Image<'a> {
    memory: &'a mut Memory,
}

impl<'a> Image<'a> {
    pub fn new(lent: &'a mut Memory) -> Image<'a>
        ensures rows { image result.memory.now ≡ image lent.old }
        ensures lent { lent_by result.memory ≡ lent_by lent.entry }
    {
        Image { memory: lent }
    }

    pub fn into_memory(self) -> &'a mut Memory
        ensures rows { image result.now ≡ image self.entry.memory.now }
        ensures lent { lent_by result ≡ lent_by self.entry.memory }
    {
        let Image { memory } = self;
        memory
    }
}

impl<'a> Store for Image<'a> {
    ghost rows = { λ s. image s.memory.now };

    ghost full = { λ s. image_full s.memory.now };

    ghost lent = { λ s. lent_by s.memory };

    fn fetch(&mut self, table: u32, row: u32) -> Result<Row, Refusal> {
        let place = place_of(table, row)?;
        Ok(self.memory.row(place))
    }

    fn put(&mut self, table: u32, row: u32, value: Row) -> Result<(), Refusal> {
        let place = place_of(table, row)?;
        self.memory.set_row(place, value);
        Ok(())
    }
}
