// The lines that are written; each ends with a newline. What allocates takes the heap first, as everywhere.
ghost use Rattle.std.specs.Prelude.{◌≡◌, IfOk, string_bytes};
ghost use Rattle.entry_reader.specs.Reads.{name_of};
ghost use Rattle.entries.specs.Models.{grammar_of};
ghost use Rattle.report.specs.Lines.{counted_noun, counts_line, symbol_line, production_line, reference_line, refusal_line, entry_row, refusal_row};

use entries::grammar::Grammar;
use entry_format::fault::LoadFault;
use entry_reader::name::Name;
use std::alloc::{AllocError, Global};

// A count and its noun.
fn counted(heap: Global, count: usize, noun: &str) -> Result<String, AllocError>
    ensures { IfOk result (λ t. string_bytes t ≡ counted_noun count noun.now) }
{
    let ending = if count == 1 { "" } else { "s" };
    format!(in heap; "{count} {noun}{ending}")
}

// How many of each kind a grammar has.
pub(crate) fn counts_line(heap: Global, file: &str, grammar: &Grammar) -> Result<String, AllocError>
    ensures { IfOk result (λ t. string_bytes t ≡ counts_line file.now (grammar_of grammar.now)) }
{
    let terminals = counted(heap, grammar.terminals().len(), "terminal")?;
    let nonterminals = counted(heap, grammar.nonterminals().len(), "nonterminal")?;
    let productions = counted(heap, grammar.productions().len(), "production")?;
    let names = counted(heap, grammar.references().len(), "right-side name")?;
    format!(in heap;
        "{file}: grammar with {terminals}, {nonterminals}, {productions} and {names}\n"
    )
}

// A symbol of a grammar whose first symbols are its terminals. Like the next function in its parameters, and another line.
pub(crate) fn symbol_line(
    heap: Global,
    terminals: usize,
    symbol: usize,
    name: &Name,
) -> Result<String, AllocError>
    ensures { IfOk result (λ t. string_bytes t ≡ symbol_line terminals symbol (name_of name.now)) }
{
    let kind = if symbol < terminals {
        "terminal"
    } else {
        "nonterminal"
    };
    let start = if symbol == terminals {
        ", the start symbol"
    } else {
        ""
    };
    let name = name.text();
    format!(in heap; "symbol {symbol}: {kind} {name}{start}\n")
}

// The head of a production's lines.
pub(crate) fn production_line(
    heap: Global,
    number: usize,
    left: &Name,
    count: usize,
) -> Result<String, AllocError>
    ensures { IfOk result (λ t. string_bytes t ≡ production_line number (name_of left.now) count) }
{
    let left = left.text();
    format!(in heap; "production {number} of {left}, right-side names: {count}\n")
}

// A right-side name and the symbol that it names, if any.
pub(crate) fn reference_line(
    heap: Global,
    reference: usize,
    name: &Name,
    symbol: Option<usize>,
) -> Result<String, AllocError>
    ensures { IfOk result (λ t. string_bytes t ≡ reference_line reference (name_of name.now) symbol) }
{
    let place = name.place();
    let name = name.text();
    match symbol {
        Some(symbol) => format!(in heap;
            "  reference {reference} at byte {place}: {name} is symbol {symbol}\n"
        ),
        None => format!(in heap; "  reference {reference} at byte {place}: {name} dangles\n"),
    }
}

// A refused file, in words.
pub fn refusal_line(heap: Global, file: &str, fault: LoadFault) -> Result<String, AllocError>
    ensures { IfOk result (λ t. string_bytes t ≡ refusal_line file.now fault) }
{
    let number = fault.number();
    let layer = fault.layer();
    let place = fault.place();
    format!(in heap;
        "{file}: refused with number {number} by the {layer} layer at byte {place}: {fault}\n"
    )
}

// A loaded file, in fields.
pub fn entry_row(heap: Global, file: &str) -> Result<String, AllocError>
    ensures { IfOk result (λ t. string_bytes t ≡ entry_row file.now) }
{
    format!(in heap; "entry\t{file}\tgrammar\n")
}

// A refused file, in fields.
pub fn refusal_row(heap: Global, file: &str, fault: LoadFault) -> Result<String, AllocError>
    ensures { IfOk result (λ t. string_bytes t ≡ refusal_row file.now fault) }
{
    format!(in heap;
        "refused\t{file}\t{}\t{}\t{}\n",
        fault.number(),
        fault.layer(),
        fault.place()
    )
}
