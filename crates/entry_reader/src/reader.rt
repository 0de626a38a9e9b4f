// The part of a file that is still to be read.
ghost use Rattle.std.specs.Prelude.{◌+◌, ◌^◌, ◌<◌, length};

pub mod fields;
pub mod position;

// The bytes that are still to be read, and the place of the first of them in the file.
#[derive(Debug, Drop)]
pub struct Reader<'a> {
    rest: &'a [u8],
    place: usize,
    ghost fits: { place + length rest.now < 2 ^ 64 },
}
