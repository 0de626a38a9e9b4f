// Resolves the right-side names of a grammar.
ghost use Rattle.std.specs.Prelude.{◌≡◌, length};
ghost use Rattle.entry_format.specs.Grammars.{references, symbols};
ghost use Rattle.entries.specs.Models.{grammar_of};
ghost use Rattle.entries.specs.Resolving.{resolve_reference, resolver_laws, Resolves};

use crate::grammar::Grammar;
use references::{Dangling, Resolver};

// Tells which symbol each right-side name names.
#[derive(Clone, Copy)]
pub struct GrammarResolver<'g, 'a> {
    grammar: &'g Grammar<'a>,
}

impl<'g, 'a> GrammarResolver<'g, 'a> {
    pub fn new(grammar: &'g Grammar<'a>) -> GrammarResolver<'g, 'a>
        ensures model { grammar_of result.grammar.now ≡ grammar_of grammar.now }
        ensures resolves { Resolves (grammar_of grammar.now) }
    {
        GrammarResolver { grammar }
    }
}

impl Resolver for GrammarResolver<'_, '_> {
    ghost references = { λ s. length (references (grammar_of s.grammar.now).productions) };

    ghost declarations = { λ s. length (symbols (grammar_of s.grammar.now)) };

    ghost names = { λ s. resolve_reference (grammar_of s.grammar.now) };

    ghost laws = { λ s. resolver_laws (grammar_of s.grammar.now) };

    fn reference_count(&self) -> usize {
        self.grammar.references().len()
    }

    fn declaration_count(&self) -> usize {
        self.grammar.terminals().len() + self.grammar.nonterminals().len()
    }

    fn resolve(&self, reference: usize) -> Result<usize, Dangling> {
        let dangling = Dangling { reference };
        let name = self.grammar.references().get(reference).ok_or(dangling)?;
        self.grammar.symbol_of(name).ok_or(dangling)
    }
}
