// A lattice that is too high for a table.
ghost use Rattle.std.specs.Prelude.{◌^◌, ◌<◌};

mod lattice;

pub use lattice::NoEquations;

// A 32-bit number; the join of two is the larger one.
#[derive(Clone, Copy, Debug, PartialEq, Eq, PartialOrd, Ord)]
pub struct Largest {
    pub number: u32,
    ghost fits: { number < 2 ^ 32 },
}
