// Families of values, from which operands are read.
ghost use Rattle.std.specs.Prelude.{◌≡◌, ℕ, slice_index_or};

use lattices::Lattice;

// A family has a value for each instance.
pub trait Family<V> {
    ghost value: { Self → ℕ → V };

    fn value(&self, instance: usize) -> V
        ensures { result ≡ value self.now instance };
}

// A list of values by their numbers, the bottom past its end.
#[derive(Clone, Copy)]
pub struct Values<'a, V> {
    pub list: &'a [V],
}

impl<V: Lattice> Family<V> for Values<'_, V> {
    ghost value = { λ s j. slice_index_or s.list.now j V.Lattice.bot };

    fn value(&self, instance: usize) -> V {
        // A match, since the bottom is made only where there is no value.
        match self.list.get(instance) {
            Some(value) => *value,
            None => V::bottom(),
        }
    }
}
