// The productions of a grammar.
ghost use Rattle.std.specs.Prelude.{◌≡◌};

use entry_reader::name::Name;

// A production: its left name, the number of the nonterminal that this names, and its right side, `len` references from `first` on.
// References are numbered over the whole file and lie in one vector, whose memory is reserved before the file is read.
#[derive(Clone, Copy)]
pub struct Production<'a> {
    pub(crate) left: Name<'a>,
    pub(crate) nonterminal: usize,
    pub(crate) first: usize,
    pub(crate) len: usize,
}

impl<'a> Production<'a> {
    pub fn left(&self) -> Name<'a>
        ensures { result ≡ self.now.left }
    {
        self.left
    }

    // The number of the left side among the nonterminals.
    pub fn nonterminal(&self) -> usize
        ensures { result ≡ self.now.nonterminal }
    {
        self.nonterminal
    }

    // The number of the first right-side name among the references.
    pub fn first(&self) -> usize
        ensures { result ≡ self.now.first }
    {
        self.first
    }

    // How many right-side names there are.
    pub fn len(&self) -> usize
        ensures { result ≡ self.now.len }
    {
        self.len
    }
}
