// A resolver that counts how often it is asked, and the layer above it.
ghost use Rattle.references.specs.Halves.{halves, halves_laws};

use crate::{Dangling, Memo, Memoized, Resolver};
use std::alloc::{AllocError, Global};
use std::cell::Cell;
use std::test::Fail;

// An even reference names the declaration of half its number, and an odd one dangles.
#[derive(Drop)]
struct Halves<'a> {
    size: usize,
    asked: &'a Cell<usize>,
}

impl Resolver for Halves<'_> {
    ghost references = { λ s. s.size };

    ghost declarations = { λ s. s.size };

    ghost names = { λ s. halves s.size };

    ghost laws = { λ s. halves_laws s.size };

    fn reference_count(&self) -> usize {
        self.size
    }

    fn declaration_count(&self) -> usize {
        self.size
    }

    fn resolve(&self, reference: usize) -> Result<usize, Dangling> {
        self.asked.set(self.asked.get().wrapping_add(1));
        if reference < self.size && reference % 2 == 0 {
            Ok(reference / 2)
        } else {
            Err(Dangling { reference })
        }
    }
}

// The layer that remembers answers, above a resolver of `size` references that counts in `asked`.
fn memoized_halves(
    heap: Global,
    size: usize,
    asked: &Cell<usize>,
) -> Result<Memoized<Halves<'_>>, AllocError> {
    let memo = Memo::reserve(heap)?;
    Ok(Memoized::new(Halves { size, asked }, memo))
}

#[test]
fn asks_once_for_the_first_references(rt: HostRuntime) -> Result<(), Fail> {
    let asked = Cell::new(0);
    let memoized = memoized_halves(rt.alloc(), 1030, &asked)?;
    assert_eq!(rt; asked.get(), 1024);
    assert_eq!(rt; memoized.resolve(1022), Ok(511));
    assert_eq!(rt; memoized.resolve(1023), Err(Dangling { reference: 1023 }));
    assert_eq!(rt; asked.get(), 1024);
    assert_eq!(rt; memoized.resolve(1024), Ok(512));
    assert_eq!(rt; asked.get(), 1025);
    Ok(())
}

#[test]
fn asks_for_no_more_than_there_are(rt: HostRuntime) -> Result<(), Fail> {
    let asked = Cell::new(0);
    let memoized = memoized_halves(rt.alloc(), 3, &asked)?;
    assert_eq!(rt; memoized.resolve(2), Ok(1));
    assert_eq!(rt; asked.get(), 3);
    assert_eq!(rt; memoized.resolve(3), Err(Dangling { reference: 3 }));
    assert_eq!(rt; asked.get(), 4);
    assert_eq!(rt; memoized.reference_count(), 3);
    assert_eq!(rt; memoized.declaration_count(), 3);
    Ok(())
}
