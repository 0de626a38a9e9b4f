// The report on a grammar.
ghost use Rattle.std.specs.Prelude.{◌≡◌, ◌+◌, ◌^◌, ◌<◌, map, length, IfOk, string_bytes};
ghost use Rattle.entry_reader.specs.Reads.{name_of};
ghost use Rattle.entries.specs.Models.{grammar_of};
ghost use Rattle.entries.specs.Resolving.{resolve_reference};
ghost use Rattle.report.specs.Reports.{symbols_text, production_text, productions_text, grammar_report};

use crate::lines::{counts_line, production_line, reference_line, symbol_line};
use entries::grammar::Grammar;
use entries::production::Production;
use entries::resolver::GrammarResolver;
use entry_reader::name::Name;
use references::{Memo, Memoized, Resolver};
use std::alloc::{AllocError, Global};

// A line for each symbol, by its number.
fn symbols_text(heap: Global, grammar: &Grammar) -> Result<String, AllocError>
    ensures { IfOk result (λ t. string_bytes t ≡ symbols_text (grammar_of grammar.now)) }
{
    let terminals = grammar.terminals();
    let symbols = terminals.iter().chain(grammar.nonterminals());
    let mut lines = String::new(heap);
    for (symbol, name) in symbols.enumerate() {
        lines.push_str(&symbol_line(heap, terminals.len(), symbol, name)?)?;
    }
    Ok(lines)
}

// A production and its right-side names.
fn production_text<R: Resolver>(
    heap: Global,
    number: usize,
    production: &Production,
    right: &[Name],
    resolver: &R,
) -> Result<String, AllocError>
    requires { production.now.first + length right.now < 2 ^ 64 }
    ensures { IfOk result (λ t. string_bytes t ≡ production_text (R.Resolver.names resolver.now) number production.now.first (name_of production.now.left) (map name_of right.now)) }
{
    let first = production.first();
    let mut lines = production_line(heap, number, &production.left(), right.len())?;
    for (i, name) in right.iter().enumerate() {
        let reference = first + i;
        let symbol = resolver.resolve(reference).ok();
        lines.push_str(&reference_line(heap, reference, name, symbol)?)?;
    }
    Ok(lines)
}

// The productions, by their numbers.
fn productions_text<R: Resolver>(
    heap: Global,
    grammar: &Grammar,
    resolver: &R,
) -> Result<String, AllocError>
    ensures { IfOk result (λ t. string_bytes t ≡ productions_text (R.Resolver.names resolver.now) 0 0 (grammar_of grammar.now).productions) }
{
    let mut lines = String::new(heap);
    for (number, production) in grammar.productions().iter().enumerate() {
        let right = grammar.right_side(number).unwrap();
        lines.push_str(&production_text(heap, number, production, right, resolver)?)?;
    }
    Ok(lines)
}

// The report on a grammar whose right-side names `resolver` resolves.
pub fn grammar_report<R: Resolver>(
    heap: Global,
    file: &str,
    grammar: &Grammar,
    resolver: &R,
) -> Result<String, AllocError>
    ensures { IfOk result (λ t. string_bytes t ≡ grammar_report file.now (grammar_of grammar.now) (R.Resolver.names resolver.now)) }
{
    let mut report = counts_line(heap, file, grammar)?;
    report.push_str(&symbols_text(heap, grammar)?)?;
    report.push_str(&productions_text(heap, grammar, resolver)?)?;
    Ok(report)
}

// The report on a grammar, with each right-side name resolved to its symbol.
pub fn text_report(heap: Global, file: &str, grammar: &Grammar) -> Result<String, AllocError>
    ensures { IfOk result (λ t. string_bytes t ≡ grammar_report file.now (grammar_of grammar.now) (resolve_reference (grammar_of grammar.now))) }
{
    let memo = Memo::reserve(heap)?;
    let resolver = Memoized::new(GrammarResolver::new(grammar), memo);
    grammar_report(heap, file, grammar, &resolver)
}
