//! Rows of numbers, all of one width.

ghost use Rattle.std.specs.Prelude.{◌≡◌, ◌<◌, ◌*◌, [], length, slice_index_or};
ghost use Rattle.csv_numbers.specs.FlatRows.{flat_rows};

use std::marker::Model;

/// Rows of numbers, all of one width. Contracts see them as the list of the rows.
#[derive(Drop)]
pub struct NumberRows {
    // The numbers of the first row, of the second, and so on.
    numbers: Vec<u64>,
    width: usize,
    count: usize,
}

impl Model for NumberRows {
    ghost use Rattle.std.specs.Prelude.{◌≡◌, ◌*◌, List, ℕ, length};
    ghost use Rattle.csv_numbers.specs.FlatRows.{flat_rows};

    ghost Value = { List (List ℕ) };

    ghost view = { λ r. flat_rows r.width r.count r.numbers.items };

    ghost invariant = { λ r. length r.numbers.items ≡ r.count * r.width };
}

impl NumberRows {
    // The rows of this width, of which there are `count`.
    pub(crate) fn new(numbers: Vec<u64>, width: usize, count: usize) -> NumberRows
        requires { length numbers.items ≡ count * width }
        ensures { result ≡ flat_rows width count numbers.items }
    {
        NumberRows {
            numbers,
            width,
            count,
        }
    }

    /// How many rows there are.
    pub fn len(&self) -> usize
        ensures { result ≡ length self.now }
    {
        self.count
    }

    /// The numbers of the row at this place, from the left. The first place is 0.
    pub fn row(&self, place: usize) -> &[u64]
        requires { place < length self.now }
        ensures { result.now ≡ slice_index_or self.now place [] }
    {
        let numbers = self.numbers.as_slice();
        let start = place * self.width;
        &numbers[start..start + self.width]
    }
}
