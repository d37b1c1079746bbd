ghost use Rattle.std.specs.Prelude.{◌≡◌, slice_index};
ghost use Rattle.catalogue.specs.Refusals.{told_as};
ghost use Rattle.layers.specs.Numbers.{count, in_order as in_order_of, permutation, numbers_reply};

use super::Numbers;
use catalogue::refusal::Refusal;
use catalogue::table::Table;

// How often the number stands among them.
fn count_of(numbers: &[u32; 8], n: u32) -> usize
    ensures { result ≡ count n numbers.now }
{
    numbers.iter().filter(|number| **number == n).count()
}

fn in_order(numbers: &[u32; 8], table: Table) -> bool
    ensures { result ≡ in_order_of numbers.now table.number }
{
    numbers[table.index()] < 8 && count_of(numbers, table.number()) == 1
}

fn is_permutation(numbers: &[u32; 8]) -> bool
    ensures { result ≡ permutation numbers.now }
{
    Table::all().iter().all(|table| in_order(numbers, *table))
}

impl Numbers {
    pub fn new(numbers: [u32; 8]) -> Result<Numbers, Refusal>
        ensures { told_as (λ n. n.below) result ≡ numbers_reply numbers }
    {
        if !is_permutation(&numbers) {
            return Err(Refusal::NotAPermutation);
        }
        Ok(Numbers { below: numbers })
    }

    // The table below.
    pub(crate) fn of(&self, table: Table) -> u32
        ensures { result ≡ slice_index self.now.below table.number }
    {
        self.below[table.index()]
    }
}
