// Lattices of finite height.
#![tactic(auto)]

ghost use Rattle.std.specs.Prelude.{◌≡◌, ℕ, min, Bool, Decides};
ghost use Rattle.lattices.specs.Laws.{LatticeLaws};

pub mod number_set;
pub mod pair;
#[cfg(test)]
mod tests;
// bool is the lattice of no and yes.
mod yes_no;

// The height that is told at most.
pub const TOLD_HEIGHT_LIMIT: u32 = 65536;

// Values with a bottom, an order, a join, an equality, a height and ranks.
pub trait Lattice: Sized + Copy {
    ghost bot: { Self };

    ghost le: { Self → Self → Type 0 };

    ghost lub: { Self → Self → Self };

    ghost same: { Self → Self → Bool };

    ghost height: { ℕ };

    ghost rank: { Self → ℕ };

    // What each `impl` proves of these.
    ghost laws: { LatticeLaws bot le lub same height rank };

    fn bottom() -> Self
        ensures { result ≡ bot };

    fn join(self, other: Self) -> Self
        ensures { result ≡ lub self other };

    fn equal(self, other: Self) -> bool
        ensures { result ≡ same self other };

    // Whether `self` is at or below `other`.
    fn below(self, other: Self) -> bool
        ensures { Decides result (le self other) };

    // The smaller of the height and 65,536.
    fn told_height() -> u32
        ensures { result ≡ min height 65536 };
}
