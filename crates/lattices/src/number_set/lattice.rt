// Sets of numbers as a lattice, ordered by inclusion.
ghost use Rattle.lattices.specs.Sets.{Subset, empty_set, set_union, same_set, set_size, set_laws};

use crate::Lattice;
use crate::number_set::NumberSet;

impl Lattice for NumberSet {
    ghost bot = { empty_set };

    ghost le = { Subset };

    ghost lub = { set_union };

    ghost same = { same_set };

    ghost height = { 64 };

    ghost rank = { set_size };

    ghost laws = { set_laws };

    fn bottom() -> NumberSet {
        NumberSet::empty()
    }

    fn join(self, other: NumberSet) -> NumberSet {
        self.union(other)
    }

    fn equal(self, other: NumberSet) -> bool {
        self == other
    }

    fn below(self, other: NumberSet) -> bool {
        self.join(other) == other
    }

    fn told_height() -> u32 {
        64
    }
}
