// Vectors whose memory is reserved ahead of their use.
#![tactic(auto)]

ghost use Rattle.std.specs.Prelude.{◌≡◌, IfOk};
ghost use Rattle.reserved_vec.specs.Reserved.{IsReserved};

use std::alloc::{AllocError, Global};

#[cfg(test)]
mod tests;

// An empty vector with room for `N` items.
#[derive(Drop)]
pub struct ReservedVec<T, const N: usize> {
    items: Vec<T>,
    ghost reserved: { IsReserved N items },
}

impl<T, const N: usize> ReservedVec<T, N> {
    // Its only refusal is want of memory.
    pub fn new(heap: Global) -> Result<Self, AllocError>
        ensures { IfOk result (λ r. IsReserved N r.items) }
    {
        let items = Vec::with_capacity(heap, N)?;
        Ok(ReservedVec { items })
    }

    // The vector, to be filled.
    pub fn into_vec(self) -> Vec<T>
        ensures same { result ≡ self.items }
        ensures reserved { IsReserved N result }
    {
        self.items
    }
}
