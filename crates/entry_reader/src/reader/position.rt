// Where a reader stands in a file.
ghost use Rattle.std.specs.Prelude.{◌≡◌, length, ◌==◌};
ghost use Rattle.entry_format.specs.Reading.{input};
ghost use Rattle.entry_reader.specs.Reads.{input_of};

use crate::reader::Reader;

impl<'a> Reader<'a> {
    pub fn new(file: &'a [u8]) -> Reader<'a>
        ensures { input_of result ≡ input file.now 0 }
    {
        Reader {
            rest: file,
            place: 0,
        }
    }

    // Whether nothing is left to read.
    pub fn is_at_end(&self) -> bool
        ensures { result ≡ (length (input_of self.now).rest == 0) }
    {
        self.rest.is_empty()
    }

    // The place of the next byte.
    pub fn place(&self) -> usize
        ensures { result ≡ (input_of self.now).place }
    {
        self.place
    }
}
