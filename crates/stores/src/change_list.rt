ghost use Rattle.std.specs.Prelude.{◌≡◌, slice_index_or, slice_set};
ghost use Rattle.catalogue.specs.Rows.{blank};
ghost use Rattle.stores.specs.Held.{image, image_full, beyond, lent_by};
ghost use Rattle.stores.specs.Changes.{noted, noted_full, latest as latest_of};

use crate::memory::Memory;
use arrayvec::ArrayVec;
use catalogue::refusal::Refusal;
use catalogue::row::{Place, Row, place_of};
use catalogue::store::Store;

const MOST_CHANGES: usize = 32;

// A row that was put at a place.
#[derive(Clone, Copy, Default)]
pub struct Change {
    place: Place,
    row: Row,
}

// A store in lent memory, with the latest changes, the earliest first, which are not yet written into it.
#[derive(Drop)]
pub struct ChangeList<'a> {
    memory: &'a mut Memory,
    changes: ArrayVec<Change, MOST_CHANGES>,
}

// Writes the changes into the memory, in their order.
#[tactic(auto, using(std::proofs::lemmas::List::Sums::fold_more))]
fn fold(memory: &mut Memory, changes: &[Change])
    ensures image { image memory.new ≡ noted (image memory.old) changes.now }
    ensures beyond { beyond memory.new ≡ beyond memory.old }
{
    for change in changes {
        memory.set_row(change.place, change.row);
    }
}

// The row that the latest change of the place puts there.
fn latest(changes: &[Change], place: Place) -> Option<Row>
    ensures { result ≡ latest_of changes.now place.index }
{
    changes
        .iter()
        .rev()
        .find(|change| change.place == place)
        .map(|change| change.row)
}

// The row at the place: that of its latest change, or the one in the memory.
fn row_at(memory: &Memory, changes: &[Change], place: Place) -> Row
    ensures { result ≡ slice_index_or (noted (image memory.now) changes.now) place.index blank }
{
    latest(changes, place).unwrap_or_else(|| memory.row(place))
}

// One change more; a full list is written into the memory first.
#[tactic(auto, using(std::proofs::lemmas::List::Sums::fold_push))]
fn note(memory: &mut Memory, changes: &mut ArrayVec<Change, MOST_CHANGES>, change: Change)
    ensures rows { noted (image memory.new) changes.new.items ≡ slice_set (noted (image memory.old) changes.old.items) change.place.index change.row }
    ensures beyond { beyond memory.new ≡ beyond memory.old }
{
    if changes.is_full() {
        fold(memory, changes);
        changes.clear();
    }
    changes.push(change);
}

impl<'a> ChangeList<'a> {
    pub fn new(lent: &'a mut Memory) -> ChangeList<'a>
        ensures rows { noted (image result.memory.now) result.changes.items ≡ image lent.old }
        ensures lent { lent_by result.memory ≡ lent_by lent.entry }
    {
        ChangeList {
            memory: lent,
            changes: ArrayVec::new(),
        }
    }

    // Writes the changes into the memory, and hands it back.
    pub fn into_memory(self) -> &'a mut Memory
        ensures image { image result.now ≡ noted (image self.entry.memory.now) self.entry.changes.items }
        ensures lent { lent_by result ≡ lent_by self.entry.memory }
    {
        let ChangeList { memory, changes } = self;
        fold(memory, &changes);
        memory
    }
}

impl<'a> Store for ChangeList<'a> {
    ghost rows = { λ s. noted (image s.memory.now) s.changes.items };

    ghost full = { λ s. noted_full (image s.memory.now) s.changes.items (image_full s.memory.now) };

    ghost lent = { λ s. lent_by s.memory };

    fn fetch(&mut self, table: u32, row: u32) -> Result<Row, Refusal> {
        let place = place_of(table, row)?;
        Ok(row_at(self.memory, &self.changes, place))
    }

    fn put(&mut self, table: u32, row: u32, value: Row) -> Result<(), Refusal> {
        let place = place_of(table, row)?;
        note(self.memory, &mut self.changes, Change { place, row: value });
        Ok(())
    }
}
