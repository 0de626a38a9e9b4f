// Systems of equations over lattices.
#![tactic(auto)]

ghost use Rattle.std.specs.Prelude.{◌≡◌, ℕ, ◌↔◌};
ghost use Rattle.equations.specs.Equations.{Equations, Lawful};

use lattices::Lattice;
use references::Dangling;

pub mod family;
mod listed;
pub mod work;

// Equations over the values of a lattice, for instances numbered from 0.
pub trait System {
    type Value: Lattice;

    ghost equations: { Self → Equations Self.Value };

    // The order and the bottom that the rules speak of; the functions promise that they are the lattice's.
    ghost order: { Self.Value → Self.Value → Type 0 };

    ghost least: { Self.Value };

    // What each `impl` proves of these.
    ghost lawful: { (s : Self) → Lawful least order (equations s) };

    // The number of instances.
    fn size(&self) -> usize
        ensures size { result ≡ (equations self.now).size }
        ensures order { (x y : Self.Value) → order x y ↔ Self.Value.Lattice.le x y }
        ensures bottom { least ≡ Self.Value.Lattice.bot };

    // The number of operands of an instance. An operand is named by its instance and its index, in the functions below too.
    fn operand_count(&self, instance: usize) -> usize
        ensures { result ≡ (equations self.now).count instance };

    fn operand(&self, instance: usize, index: usize) -> Result<usize, Dangling>
        ensures { result ≡ (equations self.now).operand instance index };

    fn start(&self, instance: usize) -> Self::Value
        ensures { result ≡ (equations self.now).start instance };

    // The value after operand `index` has the value `operand`.
    fn step(
        &self,
        instance: usize,
        index: usize,
        so_far: Self::Value,
        operand: Self::Value,
    ) -> Self::Value
        ensures { result ≡ (equations self.now).step instance index so_far operand };
}
