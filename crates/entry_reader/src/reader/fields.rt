// The fields of a file.
ghost use Rattle.std.specs.Prelude.{◌≡◌, ◌≤◌, [], length, OnOk};
ghost use Rattle.entry_format.specs.Reading.{read_byte, read_count, read_name, read_name_bytes};
ghost use Rattle.entry_reader.specs.Reads.{input_of, name_of, reads, passed};

use crate::name::Name;
use crate::reader::Reader;
use entry_format::fault::ReadFault;
use std::str::from_utf8;

impl<'a> Reader<'a> {
    pub fn byte(&mut self) -> Result<u8, ReadFault>
        ensures { reads (λ v. v) result self.new ≡ read_byte (input_of self.old) }
    {
        let [b, rest @ ..] = self.rest else {
            return Err(ReadFault::EndOfFile { place: self.place });
        };
        self.rest = rest;
        self.place += 1;
        Ok(*b)
    }

    // A number of two bytes, the high byte first.
    pub fn count(&mut self) -> Result<u16, ReadFault>
        ensures { reads (λ v. v) result self.new ≡ read_count (input_of self.old) }
    {
        let high = self.byte()?;
        let low = self.byte()?;
        Ok(u16::from_be_bytes([high, low]))
    }

    // Passes the `len` bytes of a name.
    fn pass_name(&mut self, len: u8) -> Result<(), ReadFault>
        ensures read { passed len self.old result self.new ≡ read_name_bytes len [] (input_of self.old) }
        ensures within { OnOk result (len ≤ length self.old.rest.now) }
    {
        for _ in 0..len {
            let place = self.place;
            let b = self.byte()?;
            if !b.is_ascii_graphic() {
                return Err(ReadFault::BadName { place });
            }
        }
        Ok(())
    }

    // The `len` bytes of a name.
    fn name_text(&mut self, len: u8) -> Result<&'a str, ReadFault>
        ensures { reads (λ x. x.now) result self.new ≡ read_name_bytes len [] (input_of self.old) }
    {
        let start = self.rest;
        self.pass_name(len)?;
        Ok(from_utf8(&start[..usize::from(len)]).unwrap())
    }

    pub fn name(&mut self) -> Result<Name<'a>, ReadFault>
        ensures { reads name_of result self.new ≡ read_name (input_of self.old) }
    {
        let place = self.place;
        let len = self.byte()?;
        if !(1..=32).contains(&len) {
            return Err(ReadFault::BadName { place });
        }
        let text = self.name_text(len)?;
        Ok(Name { text, place })
    }
}
