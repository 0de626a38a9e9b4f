// What can be wrong with an entry file.
ghost use Rattle.std.specs.Prelude.{◌≡◌, Some};
ghost use Rattle.entry_format.specs.Faults.{layer_name, number_of, layer_of, place_of, reason_of};
ghost use Rattle.entry_format.specs.declared.fault.LoadFault.TheVariants.{Read, Names};

use std::error::Error;
use std::fmt;

// A fault inside one field.
#[derive(Clone, Copy, Debug, PartialEq, Eq)]
pub enum ReadFault {
    // The file ends inside a field.
    EndOfFile { place: usize },
    // A name's length or one of its bytes is not allowed.
    BadName { place: usize },
}

// A fault of a name beside the names before it.
#[derive(Clone, Copy, Debug, PartialEq, Eq)]
pub enum NameFault {
    // An equal name is already declared.
    Duplicate { place: usize },
    // The left name of a production is no nonterminal.
    NotNonterminal { place: usize },
}

// The first fault of a file, in reading order.
#[derive(Clone, Copy, Debug, PartialEq, Eq)]
pub enum LoadFault {
    Read(ReadFault),
    Names(NameFault),
    // The first byte is not the kind that was asked for.
    WrongKind { place: usize },
    // A count, or a running sum of counts, is not within its limits.
    OverLimit { place: usize },
    // There are bytes after the end.
    TrailingBytes { place: usize },
}

// The part of a loader that found a fault.
#[derive(Clone, Copy, Debug, PartialEq, Eq)]
pub enum Layer {
    Reader,
    Names,
    Section,
}

impl Layer {
    pub fn name(self) -> &'static str
        ensures { result.now ≡ layer_name self }
    {
        match self {
            Layer::Reader => "reader",
            Layer::Names => "names",
            Layer::Section => "section",
        }
    }
}

impl fmt::Display for Layer {
    ghost output = { λ layer. Some (layer_name layer) };

    fn fmt<W: fmt::Write>(&self, f: &mut fmt::Formatter<W>) -> fmt::Result {
        f.write_str(self.name())
    }
}

impl LoadFault {
    // The number of the refusal.
    pub fn number(self) -> u8
        ensures { result ≡ number_of self }
    {
        match self {
            LoadFault::Read(ReadFault::EndOfFile { .. }) => 1,
            LoadFault::WrongKind { .. } => 2,
            LoadFault::OverLimit { .. } => 3,
            LoadFault::Read(ReadFault::BadName { .. }) => 4,
            LoadFault::Names(NameFault::Duplicate { .. }) => 5,
            LoadFault::Names(NameFault::NotNonterminal { .. }) => 6,
            LoadFault::TrailingBytes { .. } => 9,
        }
    }

    pub fn layer(self) -> Layer
        ensures { result ≡ layer_of self }
    {
        match self {
            LoadFault::Read(_) => Layer::Reader,
            LoadFault::Names(_) => Layer::Names,
            LoadFault::WrongKind { .. }
            | LoadFault::OverLimit { .. }
            | LoadFault::TrailingBytes { .. } => Layer::Section,
        }
    }

    // The byte place of the fault, counted from 0.
    pub fn place(self) -> usize
        ensures { result ≡ place_of self }
    {
        match self {
            LoadFault::Read(ReadFault::EndOfFile { place } | ReadFault::BadName { place }) => place,
            LoadFault::Names(
                NameFault::Duplicate { place } | NameFault::NotNonterminal { place },
            ) => place,
            LoadFault::WrongKind { place }
            | LoadFault::OverLimit { place }
            | LoadFault::TrailingBytes { place } => place,
        }
    }
}

impl fmt::Display for ReadFault {
    ghost output = { λ fault. Some (reason_of (Read fault)) };

    fn fmt<W: fmt::Write>(&self, f: &mut fmt::Formatter<W>) -> fmt::Result {
        f.write_str(match self {
            ReadFault::EndOfFile { .. } => "the file ends inside a field",
            ReadFault::BadName { .. } => "a name has a bad length or byte",
        })
    }
}

impl Error for ReadFault {}

impl fmt::Display for NameFault {
    ghost output = { λ fault. Some (reason_of (Names fault)) };

    fn fmt<W: fmt::Write>(&self, f: &mut fmt::Formatter<W>) -> fmt::Result {
        f.write_str(match self {
            NameFault::Duplicate { .. } => "an equal name is already declared",
            NameFault::NotNonterminal { .. } => "the left name is no nonterminal",
        })
    }
}

impl Error for NameFault {}

impl fmt::Display for LoadFault {
    ghost output = { λ fault. Some (reason_of fault) };

    fn fmt<W: fmt::Write>(&self, f: &mut fmt::Formatter<W>) -> fmt::Result {
        match self {
            LoadFault::Read(fault) => fault.fmt(f),
            LoadFault::Names(fault) => fault.fmt(f),
            LoadFault::WrongKind { .. } => f.write_str("the first byte is not the kind asked for"),
            LoadFault::OverLimit { .. } => {
                f.write_str("a count or a sum of counts is outside its limits")
            }
            LoadFault::TrailingBytes { .. } => f.write_str("there are bytes after the end"),
        }
    }
}

impl Error for LoadFault {}

// By hand, since the loaders' clauses name the fault that `?` makes, which `from_gives` says.
impl From<ReadFault> for LoadFault {
    ghost from_gives = { λ e r. r ≡ Read e };

    fn from(e: ReadFault) -> LoadFault {
        LoadFault::Read(e)
    }
}

impl From<NameFault> for LoadFault {
    ghost from_gives = { λ e r. r ≡ Names e };

    fn from(e: NameFault) -> LoadFault {
        LoadFault::Names(e)
    }
}
