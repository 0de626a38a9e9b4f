// References, the declarations that they name, and a layer that remembers answers.
#![tactic(auto)]

ghost use Rattle.std.specs.Prelude.{◌≡◌, ℕ, Option};
ghost use Rattle.references.specs.Resolution.{ResolverLaws, resolved};

mod memoization;
#[cfg(test)]
mod tests;

pub use memoization::{Memo, Memoized};

// The fault of a reference that names no declaration.
#[derive(Clone, Copy, Debug, PartialEq, Eq)]
pub struct Dangling {
    pub reference: usize,
}

// Tells which declaration each reference of an entry names.
pub trait Resolver {
    // The number of references.
    ghost references: { Self → ℕ };

    // The number of declarations.
    ghost declarations: { Self → ℕ };

    // The declaration that a reference names, or none if it dangles.
    ghost names: { Self → ℕ → Option ℕ };

    // What each `impl` proves of the three above.
    ghost laws: { (s : Self) → ResolverLaws (references s) (declarations s) (names s) };

    fn reference_count(&self) -> usize
        ensures { result ≡ references self.now };

    fn declaration_count(&self) -> usize
        ensures { result ≡ declarations self.now };

    fn resolve(&self, reference: usize) -> Result<usize, Dangling>
        ensures { result ≡ resolved reference (names self.now reference) };
}
