// Loads a grammar's entry file.
ghost use Rattle.std.specs.Prelude.{◌≡◌, ◌≤◌, map, IfOk, vec_len, vec_capacity};
ghost use Rattle.entry_format.specs.Grammars.{loader_checks, load_grammar, read_production_after, read_productions};
ghost use Rattle.entry_format.specs.Laws.{LoadMeaning};
ghost use Rattle.entry_reader.specs.Reads.{input_of, name_of, reads};
ghost use Rattle.entries.specs.Loaded.{production_of, productions_of, Tiles, Adds};
ghost use Rattle.entries.specs.Models.{grammar_of, answered, Reserved};

use crate::fields::{read_declarations, read_kind, read_limited, read_names};
use crate::grammar::{Grammar, GrammarMemory, PRODUCTIONS, REFERENCES};
use crate::lookup::left_side;
use crate::production::Production;
use entry_format::fault::LoadFault;
use entry_reader::name::Name;
use entry_reader::reader::Reader;
use reserved_vec::ReservedVec;
use std::alloc::{AllocError, Global};

// The first byte of a grammar's entry file.
const KIND: u8 = 1;

impl<'a> GrammarMemory<'a> {
    // Its only refusal is want of memory.
    pub fn reserve(heap: Global) -> Result<GrammarMemory<'a>, AllocError>
        ensures { IfOk result Reserved }
    {
        Ok(GrammarMemory {
            terminals: ReservedVec::new(heap)?,
            nonterminals: ReservedVec::new(heap)?,
            productions: ReservedVec::new(heap)?,
            references: ReservedVec::new(heap)?,
        })
    }
}

// A production, whose right-side names are added to `references`.
fn read_production<'a>(
    reader: &mut Reader<'a>,
    nonterminals: &[Name<'a>],
    references: &mut Vec<Name<'a>>,
) -> Result<Production<'a>, LoadFault>
    requires { (vec_len references.old ≤ REFERENCES) × (REFERENCES ≤ vec_capacity references.old) }
    ensures read { reads (production_of references.new.items) result reader.new ≡ read_production_after loader_checks (map name_of nonterminals.now) (vec_len references.old) (input_of reader.old) }
    ensures adds { IfOk result (λ p. Adds p references.old references.new) }
{
    let left = reader.name()?;
    let nonterminal = left_side(nonterminals, &left)?;
    let first = references.len();
    let count = read_limited(reader, 0..=REFERENCES - first)?;
    read_names(reader, count, references)?;
    Ok(Production {
        left,
        nonterminal,
        first,
        len: count,
    })
}

// A count and that many productions, and the right-side names of them all.
fn read_productions<'a>(
    reader: &mut Reader<'a>,
    nonterminals: &[Name<'a>],
    productions: ReservedVec<Production<'a>, PRODUCTIONS>,
    references: ReservedVec<Name<'a>, REFERENCES>,
) -> Result<(Vec<Production<'a>>, Vec<Name<'a>>), LoadFault>
    ensures read { reads (λ read. productions_of read.0 read.1) result reader.new ≡ read_productions loader_checks (map name_of nonterminals.now) (input_of reader.old) }
    ensures tiles { IfOk result (λ read. Tiles 0 read.0.items (vec_len read.1)) }
{
    let mut productions = productions.into_vec();
    let mut references = references.into_vec();
    let count = read_limited(reader, 0..=PRODUCTIONS)?;
    for _ in 0..count {
        let production = read_production(reader, nonterminals, &mut references)?;
        productions.push_reserved(production);
    }
    Ok((productions, references))
}

// Reads a whole file.
fn read_grammar<'a>(file: &'a [u8], memory: GrammarMemory<'a>) -> Result<Grammar<'a>, LoadFault>
    ensures { answered grammar_of result ≡ load_grammar loader_checks file.now }
{
    let mut reader = Reader::new(file);
    read_kind(&mut reader, KIND)?;
    let terminals = read_declarations(&mut reader, 0, &[], memory.terminals)?;
    let nonterminals = read_declarations(&mut reader, 1, &terminals, memory.nonterminals)?;
    let (productions, references) = read_productions(
        &mut reader,
        &nonterminals,
        memory.productions,
        memory.references,
    )?;
    if !reader.is_at_end() {
        return Err(LoadFault::TrailingBytes {
            place: reader.place(),
        });
    }
    Ok(Grammar {
        terminals,
        nonterminals,
        productions,
        references,
    })
}

// The grammar of a file, or the first fault in reading order.
pub fn load_grammar<'a>(file: &'a [u8], memory: GrammarMemory<'a>) -> Result<Grammar<'a>, LoadFault>
    ensures value { answered grammar_of result ≡ load_grammar loader_checks file.now }
    ensures meaning { LoadMeaning file.now (answered grammar_of result) }
{
    read_grammar(file, memory)
}
