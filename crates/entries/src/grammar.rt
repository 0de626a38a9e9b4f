// Grammars, and the memory that is reserved for one.
ghost use Rattle.entries.specs.Loaded.{Loaded};

use crate::production::Production;
use entry_reader::name::Name;
use reserved_vec::ReservedVec;

pub mod contents;
pub mod load;

// The limits of a grammar.
const TERMINALS: usize = 63;

const NONTERMINALS: usize = 64;

const PRODUCTIONS: usize = 256;

const REFERENCES: usize = 1024;

// A grammar that was loaded from an entry file, of which its names are parts.
#[derive(Drop)]
pub struct Grammar<'a> {
    terminals: Vec<Name<'a>>,
    nonterminals: Vec<Name<'a>>,
    productions: Vec<Production<'a>>,
    // The right-side names of all productions: reference r is the r-th.
    references: Vec<Name<'a>>,
    ghost loaded: { ∥ Loaded terminals nonterminals productions references ∥₁ },
}

// Room for every grammar that is within the limits.
#[derive(Drop)]
pub struct GrammarMemory<'a> {
    terminals: ReservedVec<Name<'a>, TERMINALS>,
    nonterminals: ReservedVec<Name<'a>, NONTERMINALS>,
    productions: ReservedVec<Production<'a>, PRODUCTIONS>,
    references: ReservedVec<Name<'a>, REFERENCES>,
}
