// How room is reserved, and how answers are remembered and found again.
ghost use Rattle.std.specs.Prelude.{◌≡◌, ℕ, IfOk};
ghost use Rattle.references.specs.Remembered.{first_answers};
ghost use Rattle.references.specs.Memoization.{memo_references, memo_declarations, memo_names, Reserved};
ghost use Rattle.references.specs.MemoLaws.{memo_laws};

use super::{MEMO_LIMIT, Memo, Memoized};
use crate::{Dangling, Resolver};
use reserved_vec::ReservedVec;
use std::alloc::{AllocError, Global};

impl Memo {
    // Its only refusal is want of memory.
    pub fn reserve(heap: Global) -> Result<Memo, AllocError>
        ensures { IfOk result Reserved }
    {
        let answers = ReservedVec::new(heap)?;
        Ok(Memo { answers })
    }
}

impl<R: Resolver> Memoized<R> {
    // Asks `below` once for each reference that is to be remembered.
    pub fn new(below: R, memo: Memo) -> Memoized<R>
        ensures references { memo_references R.Resolver.references result ≡ R.Resolver.references below }
        ensures declarations { memo_declarations R.Resolver.declarations result ≡ R.Resolver.declarations below }
        ensures names { (n : ℕ) → memo_names R.Resolver.names result n ≡ R.Resolver.names below n }
        ensures answers { result.answers.items ≡ first_answers (R.Resolver.references below) (R.Resolver.names below) }
    {
        let mut answers = memo.answers.into_vec();
        let count = below.reference_count().min(MEMO_LIMIT);
        for reference in 0..count {
            answers.push_reserved(below.resolve(reference).ok());
        }
        let declarations = below.declaration_count();
        Memoized {
            below,
            declarations,
            answers,
        }
    }
}

impl<R: Resolver> Resolver for Memoized<R> {
    ghost references = { memo_references R.Resolver.references };

    ghost declarations = { memo_declarations R.Resolver.declarations };

    ghost names = { memo_names R.Resolver.names };

    ghost laws = { λ s. memo_laws R.Resolver.names s R.Resolver.references R.Resolver.declarations (R.Resolver.laws s.below) };

    fn reference_count(&self) -> usize {
        self.below.reference_count().max(self.answers.len())
    }

    fn declaration_count(&self) -> usize {
        self.below.declaration_count().max(self.declarations)
    }

    fn resolve(&self, reference: usize) -> Result<usize, Dangling> {
        match self.answers.get(reference) {
            Some(answer) => answer.ok_or(Dangling { reference }),
            None => self.below.resolve(reference),
        }
    }
}
