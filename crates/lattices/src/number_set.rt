// Sets of the numbers 0 to 63.
ghost use Rattle.std.specs.Prelude.{◌^◌, ◌<◌};

mod lattice;
mod methods;
mod numbers;

pub use numbers::Numbers;

// A set of numbers from 0 to 63. Each bit says whether the number of its place is a member.
#[derive(Clone, Copy, Debug, PartialEq, Eq)]
pub struct NumberSet {
    bits: u64,
    ghost fits: { bits < 2 ^ 64 },
}
