// The members of a set, in ascending order.
ghost use Rattle.std.specs.Prelude.{◌≡◌, ◌-◌};
ghost use Rattle.lattices.specs.Ascending.{Ascends};
ghost use Rattle.std.specs.Iterator.{at_most};

use crate::number_set::NumberSet;

// The members of `set` that are at least `from`.
#[derive(Clone, Copy)]
pub struct Numbers {
    set: NumberSet,
    from: usize,
}

impl NumberSet {
    // The members in ascending order.
    pub fn numbers(self) -> Numbers
        ensures set { result.set ≡ self }
        ensures from { result.from ≡ 0 }
    {
        Numbers { set: self, from: 0 }
    }
}

impl Iterator for Numbers {
    type Item = usize;

    ghost next_gives = { Ascends };

    ghost remaining = { λ s. at_most (64 - s.from) };

    fn next(&mut self) -> Option<usize> {
        let number = self.set.next_from(self.from)?;
        self.from = number + 1;
        Some(number)
    }
}
