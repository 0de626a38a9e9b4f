// The lattice of pairs.
ghost use Rattle.std.specs.Prelude.{◌+◌};
ghost use Rattle.lattices.specs.Pairs.{pair, pair_le, pair_lub, pair_same, pair_rank, pair_laws};

use crate::{Lattice, TOLD_HEIGHT_LIMIT};

// Two values, ordered in both halves at once.
#[derive(Clone, Copy, Debug, PartialEq, Eq)]
pub struct Pair<A, B> {
    pub first: A,
    pub second: B,
}

impl<A: Lattice, B: Lattice> Lattice for Pair<A, B> {
    ghost bot = { pair A.Lattice.bot B.Lattice.bot };

    ghost le = { pair_le A.Lattice.le B.Lattice.le };

    ghost lub = { pair_lub A.Lattice.lub B.Lattice.lub };

    ghost same = { pair_same A.Lattice.same B.Lattice.same };

    ghost height = { A.Lattice.height + B.Lattice.height };

    ghost rank = { pair_rank A.Lattice.rank B.Lattice.rank };

    ghost laws = { pair_laws A.Lattice.laws B.Lattice.laws };

    fn bottom() -> Pair<A, B> {
        Pair {
            first: A::bottom(),
            second: B::bottom(),
        }
    }

    fn join(self, other: Pair<A, B>) -> Pair<A, B> {
        Pair {
            first: self.first.join(other.first),
            second: self.second.join(other.second),
        }
    }

    // Not `==`, since the halves are equal as their lattices say.
    fn equal(self, other: Pair<A, B>) -> bool {
        self.first.equal(other.first) && self.second.equal(other.second)
    }

    // The derived order would look at the second halves only where the first are equal.
    fn below(self, other: Pair<A, B>) -> bool {
        self.first.below(other.first) && self.second.below(other.second)
    }

    fn told_height() -> u32 {
        (A::told_height() + B::told_height()).min(TOLD_HEIGHT_LIMIT)
    }
}
