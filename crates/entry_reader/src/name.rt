// Names, which are parts of the entry file.
ghost use Rattle.std.specs.Prelude.{◌≡◌, Decides};
ghost use Rattle.entry_format.specs.Names.{EqualTexts, NameEquality, same_name};
ghost use Rattle.entry_reader.specs.Reads.{name_of};

// The number of bytes in which long names are compared.
const COMPARED: usize = 16;

// A name of an entry file: its bytes, a part of the file, and its place, which is that of its length byte.
#[derive(Clone, Copy, Debug)]
pub struct Name<'a> {
    pub(crate) text: &'a str,
    pub(crate) place: usize,
}

impl<'a> Name<'a> {
    pub fn text(&self) -> &'a str
        ensures { result.now ≡ (name_of self.now).text }
    {
        self.text
    }

    // The place of the name's length byte in the file.
    pub fn place(&self) -> usize
        ensures { result ≡ (name_of self.now).at }
    {
        self.place
    }

    // Whether the names are equal: both have 16 bytes or more and agree in the first 16, or both are shorter and the same.
    // No `==`, since that would read as the same bytes.
    pub fn equals(&self, other: &Name) -> bool
        ensures value { result ≡ same_name (name_of self.now) (name_of other.now) }
        ensures decides { Decides result (EqualTexts (name_of self.now).text (name_of other.now).text) }
        ensures equivalence { NameEquality }
    {
        let a = self.text.as_bytes();
        let b = other.text.as_bytes();
        let n = COMPARED.min(a.len());
        let m = COMPARED.min(b.len());
        a[..n] == b[..m]
    }
}
