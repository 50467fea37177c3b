// Numbers in a list that ascends.

ghost use Rattle.std.specs.Prelude.{◌≡◌, ◌≤◌, OnOk, length};
ghost use Rattle.std.specs.List.{insert};
ghost use Rattle.mlk_cert_terms.specs.Keys.{numbers_before};

use std::alloc::AllocError;

// How many numbers are before the first that is not below this one.
fn place_of_number(numbers: &[usize], number: usize) -> usize
    ensures place { result ≡ numbers_before numbers.now number }
    ensures within { result ≤ length numbers.now }
{
    let mut place = 0;
    let mut left = numbers;
    while let Some((first, others)) = left.split_first() {
        if *first >= number {
            return place;
        }
        place += 1;
        left = others;
    }
    place
}

/// Adds a number at its place.
pub(crate) fn put_number(numbers: &mut Vec<usize>, number: usize) -> Result<(), AllocError>
    ensures { OnOk result (numbers.new.items ≡ insert numbers.old.items (numbers_before numbers.old.items number) number) }
{
    let place = place_of_number(numbers.as_slice(), number);
    numbers.insert(place, number)?;
    Ok(())
}
