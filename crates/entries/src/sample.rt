// A small grammar to try things on.
ghost use Rattle.std.specs.Prelude.{◌≡◌, Ok};
ghost use Rattle.entry_format.specs.Grammars.{loader_checks, load_grammar};
ghost use Rattle.entry_format.specs.Samples.{sample_file, sample_grammar};

// The entry file of the grammar with terminals a and b and nonterminals S and T, where S is T b, and T is a T or empty.
const SAMPLE: &[u8; 35] =
    b"\x01\x00\x02\x01a\x01b\x00\x02\x01S\x01T\x00\x03\x01S\x00\x02\x01T\x01b\x01T\x00\x02\x01a\x01T\x01T\x00\x00";

pub fn sample_grammar() -> &'static [u8]
    ensures file { result.now ≡ sample_file }
    ensures loads { load_grammar loader_checks sample_file ≡ Ok sample_grammar }
{
    SAMPLE
}
