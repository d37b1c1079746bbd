// Copying: the rows of the first replica to every other, as at the opening of a cluster. What is lent stays, which each function says for
// itself: it is of two moments, so that no value holds it.
#![tactic(auto)]

ghost use Rattle.std.specs.Prelude.{◌≡◌, ◌≤◌, length, replicate};
ghost use Rattle.catalogue.specs.Replicated.{catalogue_of};
ghost use Rattle.copying.specs.Copied.{copied_row, copied_places, copied_rows};

use catalogue::replicas::Replicas;
use catalogue::row::{ROWS, TABLES};

// The row at the place, from the first replica to another; at no place and for no replica nothing is copied.
#[tactic(auto, using(crate::proofs::Alike::copied_at))]
fn copy_row<R: Replicas>(replicas: &mut R, to: u32, place: u32)
    ensures rows { R.Replicas.catalogues replicas.new ≡ copied_row (R.Replicas.catalogues replicas.old) to place }
    ensures kept { R.Replicas.lents replicas.new ≡ R.Replicas.lents replicas.old }
{
    let table = place / ROWS;
    let row = place % ROWS;
    if let Ok(value) = replicas.fetch(0, table, row) {
        let _ = replicas.put(to, table, row, value);
    }
}

// The rows at the first places, as many as are told.
fn copy_places<R: Replicas>(replicas: &mut R, to: u32, places: u32)
    ensures rows { R.Replicas.catalogues replicas.new ≡ copied_places (R.Replicas.catalogues replicas.old) to places }
    ensures all { 512 ≤ places → R.Replicas.catalogues replicas.new ≡ copied_rows (R.Replicas.catalogues replicas.old) to }
    ensures kept { R.Replicas.lents replicas.new ≡ R.Replicas.lents replicas.old }
{
    for place in 0..places {
        copy_row(replicas, to, place);
    }
}

fn copy_rows<R: Replicas>(replicas: &mut R, to: u32)
    ensures rows { R.Replicas.catalogues replicas.new ≡ copied_rows (R.Replicas.catalogues replicas.old) to }
    ensures kept { R.Replicas.lents replicas.new ≡ R.Replicas.lents replicas.old }
{
    copy_places(replicas, to, TABLES * ROWS);
}

// Every replica has the rows of the first, which stay as they were.
pub fn copy_first<R: Replicas>(replicas: &mut R)
    ensures rows { R.Replicas.catalogues replicas.new ≡ replicate (length (R.Replicas.catalogues replicas.old)) (catalogue_of (R.Replicas.catalogues replicas.old) 0) }
    ensures kept { R.Replicas.lents replicas.new ≡ R.Replicas.lents replicas.old }
{
    for to in 1..replicas.count() {
        copy_rows(replicas, to);
    }
}
