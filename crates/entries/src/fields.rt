// The fields of an entry file, read in order.
ghost use Rattle.std.specs.Prelude.{◌≡◌, ◌+◌, ◌≤◌, false, [], map, IfOk, vec_len, vec_capacity, OnOk};
ghost use Rattle.std.specs.Range.{range_inclusive_start, range_inclusive_end, range_inclusive_exhausted};
ghost use Rattle.entry_format.specs.Grammars.{loader_checks, read_declaration, read_declarations, read_kind, read_limited};
ghost use Rattle.entry_format.specs.Reading.{read_name, series};
ghost use Rattle.entry_reader.specs.Reads.{input_of, name_of, reads};
ghost use Rattle.entries.specs.Fields.{names_of, names_from, Keeps};

use crate::lookup::check_new;
use entry_format::fault::{LoadFault, ReadFault};
use entry_reader::name::Name;
use entry_reader::reader::Reader;
use reserved_vec::ReservedVec;
use std::ops::RangeInclusive;

// The first byte, which tells the kind of the entry.
pub(crate) fn read_kind(reader: &mut Reader, kind: u8) -> Result<(), LoadFault>
    ensures { reads (λ v. v) result reader.new ≡ read_kind kind (input_of reader.old) }
{
    let place = reader.place();
    if reader.byte()? != kind {
        return Err(LoadFault::WrongKind { place });
    }
    Ok(())
}

// A count within `limits`.
pub(crate) fn read_limited(
    reader: &mut Reader,
    limits: RangeInclusive<usize>,
) -> Result<usize, LoadFault>
    requires { range_inclusive_exhausted limits ≡ false }
    ensures read { reads (λ v. v) result reader.new ≡ read_limited (range_inclusive_start limits) (range_inclusive_end limits) (input_of reader.old) }
    ensures within { IfOk result (λ n. n ≤ range_inclusive_end limits) }
{
    let place = reader.place();
    let count = usize::from(reader.count()?);
    if !limits.contains(&count) {
        return Err(LoadFault::OverLimit { place });
    }
    Ok(count)
}

// A name that is declared behind `earlier` and `later`.
fn read_declaration<'a>(
    reader: &mut Reader<'a>,
    earlier: &[Name<'a>],
    later: &[Name<'a>],
) -> Result<Name<'a>, LoadFault>
    ensures { reads name_of result reader.new ≡ read_declaration loader_checks (map name_of earlier.now) (map name_of later.now) (input_of reader.old) }
{
    let name = reader.name()?;
    check_new(earlier, later, &name)?;
    Ok(name)
}

// A count from `low` to `N` and that many names, each declared behind `earlier` and those before it.
pub(crate) fn read_declarations<'a, const N: usize>(
    reader: &mut Reader<'a>,
    low: usize,
    earlier: &[Name<'a>],
    memory: ReservedVec<Name<'a>, N>,
) -> Result<Vec<Name<'a>>, LoadFault>
    ensures { reads names_of result reader.new ≡ read_declarations loader_checks low N (map name_of earlier.now) (input_of reader.old) }
{
    let mut names = memory.into_vec();
    let count = read_limited(reader, low..=N)?;
    for _ in 0..count {
        let name = read_declaration(reader, earlier, names.as_slice())?;
        names.push_reserved(name);
    }
    Ok(names)
}

// Adds `count` names to those of `names`.
pub(crate) fn read_names<'a>(
    reader: &mut Reader<'a>,
    count: usize,
    names: &mut Vec<Name<'a>>,
) -> Result<(), ReadFault>
    requires { vec_len names.old + count ≤ vec_capacity names.old }
    ensures read { reads (λ _. names_from (vec_len names.old) names.new) result reader.new ≡ series (λ _. read_name) count [] (input_of reader.old) }
    ensures keeps { OnOk result (Keeps count names.old names.new) }
{
    for _ in 0..count {
        let name = reader.name()?;
        names.push_reserved(name);
    }
    Ok(())
}
