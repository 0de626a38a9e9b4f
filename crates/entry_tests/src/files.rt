// Entry files for the tests, and what the loader says of a file.
use entries::grammar::GrammarMemory;
use entries::grammar::load::load_grammar;
use entry_format::fault::Layer;
use std::alloc::{AllocError, Global};

// The number, the layer and the place of a refusal. A tuple, since the expected ones are rows of a table.
pub(crate) type Refusal = (u8, Layer, usize);

// The refusal of a file, or none if it loads.
pub(crate) fn refusal(heap: Global, file: &[u8]) -> Result<Option<Refusal>, AllocError> {
    let fault = load_grammar(file, GrammarMemory::reserve(heap)?).err();
    Ok(fault.map(|fault| (fault.number(), fault.layer(), fault.place())))
}

pub(crate) fn push_count(file: &mut Vec<u8>, count: u16) -> Result<(), AllocError> {
    file.extend_from_slice(&count.to_be_bytes())
}

// A name of two bytes that no other number has, below 90 * 90.
pub(crate) fn numbered_name(number: u16) -> [u8; 3] {
    let high = 33 + (number / 90 % 90) as u8;
    let low = 33 + (number % 90) as u8;
    [2, high, low]
}

// A name of `len` bytes, all x but for the last.
pub(crate) fn push_long_name(file: &mut Vec<u8>, len: u8, last: u8) -> Result<(), AllocError> {
    file.push(len)?;
    file.extend((1..len).map(|_| b'x'))?;
    file.push(last)?;
    Ok(())
}

// A count and that many names, numbered from `first` on.
pub(crate) fn push_names(file: &mut Vec<u8>, first: u16, count: u16) -> Result<(), AllocError> {
    push_count(file, count)?;
    file.extend((first..first.saturating_add(count)).flat_map(numbered_name))
}
