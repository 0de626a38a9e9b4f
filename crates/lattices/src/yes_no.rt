// bool as the lattice of no and yes, with no at the bottom.
ghost use Rattle.std.specs.Prelude.{false, ◌||◌};
ghost use Rattle.std.specs.Bool.{beq};
ghost use Rattle.lattices.specs.YesNos.{yes_le, yes_rank, yes_laws};

use crate::Lattice;

impl Lattice for bool {
    ghost bot = { false };

    ghost le = { yes_le };

    ghost lub = { ◌||◌ };

    ghost same = { beq };

    ghost height = { 1 };

    ghost rank = { yes_rank };

    ghost laws = { yes_laws };

    fn bottom() -> bool {
        false
    }

    fn join(self, other: bool) -> bool {
        self | other
    }

    fn equal(self, other: bool) -> bool {
        self == other
    }

    fn below(self, other: bool) -> bool {
        self <= other
    }

    fn told_height() -> u32 {
        1
    }
}
