// Answers that are remembered, and the room for them.
ghost use Rattle.references.specs.Remembered.{Within};

use reserved_vec::ReservedVec;

pub mod methods;

// How many references are remembered at most.
const MEMO_LIMIT: usize = 1024;

// Room for the remembered answers, reserved before they are asked for.
#[derive(Drop)]
pub struct Memo {
    answers: ReservedVec<Option<usize>, MEMO_LIMIT>,
}

// Remembers the answers of the resolver below for its first 1,024 references.
#[derive(Drop)]
pub struct Memoized<R> {
    below: R,
    // The number of declarations.
    declarations: usize,
    answers: Vec<Option<usize>>,
    ghost within: { Within declarations answers.items },
}
