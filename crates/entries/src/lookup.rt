// Names beside other names.
ghost use Rattle.std.specs.Prelude.{◌≡◌, ◌++◌, map};
ghost use Rattle.entry_format.specs.Grammars.{loader_checks};
ghost use Rattle.entry_format.specs.Names.{position};
ghost use Rattle.entry_reader.specs.Reads.{name_of};

use entry_format::fault::NameFault;
use entry_reader::name::Name;

// The position of the first name that equals `name`.
pub(crate) fn position_of(names: &[Name], name: &Name) -> Option<usize>
    ensures { result ≡ position (map name_of names.now) (name_of name.now) }
{
    names.iter().position(|other| other.equals(name))
}

// Refuses a name that is already declared, among `earlier` or `later`.
pub(crate) fn check_new(earlier: &[Name], later: &[Name], name: &Name) -> Result<(), NameFault>
    ensures { result ≡ loader_checks.declares (map name_of earlier.now ++ map name_of later.now) (name_of name.now) }
{
    // One search after the other: a chain tests at each name which of the two it is in.
    if position_of(earlier, name).is_some() || position_of(later, name).is_some() {
        return Err(NameFault::Duplicate {
            place: name.place(),
        });
    }
    Ok(())
}

// The number of the nonterminal that a left name names.
pub(crate) fn left_side(nonterminals: &[Name], name: &Name) -> Result<usize, NameFault>
    ensures { result ≡ loader_checks.left_side (map name_of nonterminals.now) (name_of name.now) }
{
    position_of(nonterminals, name).ok_or(NameFault::NotNonterminal {
        place: name.place(),
    })
}
