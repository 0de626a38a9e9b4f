// What a grammar holds.
ghost use Rattle.std.specs.Prelude.{◌≡◌, map, length};
ghost use Rattle.std.specs.Option.{option_map};
ghost use Rattle.std.specs.List.{slice_get};
ghost use Rattle.entry_format.specs.Grammars.{references, symbols};
ghost use Rattle.entry_format.specs.Names.{position};
ghost use Rattle.entry_reader.specs.Reads.{name_of};
ghost use Rattle.entries.specs.Loaded.{production_of, Tiles};
ghost use Rattle.entries.specs.Models.{grammar_of};

use crate::grammar::Grammar;
use crate::lookup::position_of;
use crate::production::Production;
use entry_reader::name::Name;

impl<'a> Grammar<'a> {
    pub fn terminals(&self) -> &[Name<'a>]
        ensures { map name_of result.now ≡ (grammar_of self.now).terminals }
    {
        self.terminals.as_slice()
    }

    // The first is the start symbol.
    pub fn nonterminals(&self) -> &[Name<'a>]
        ensures { map name_of result.now ≡ (grammar_of self.now).nonterminals }
    {
        self.nonterminals.as_slice()
    }

    // The right-side names of all productions: reference r is the r-th.
    pub fn references(&self) -> &[Name<'a>]
        ensures { map name_of result.now ≡ references (grammar_of self.now).productions }
    {
        self.references.as_slice()
    }

    pub fn productions(&self) -> &[Production<'a>]
        ensures model { map (production_of self.now.references.items) result.now ≡ (grammar_of self.now).productions }
        ensures tiles { Tiles 0 result.now (length (references (grammar_of self.now).productions)) }
    {
        self.productions.as_slice()
    }

    // The right-side names of one production.
    pub fn right_side(&self, production: usize) -> Option<&[Name<'a>]>
        ensures { option_map (λ names. map name_of names.now) result ≡ option_map (λ p. p.right) (slice_get (grammar_of self.now).productions production) }
    {
        let production = self.productions.get(production)?;
        Some(&self.references[production.first..production.first + production.len])
    }

    // The name of a symbol; terminals come first.
    pub fn symbol_name(&self, symbol: usize) -> Option<Name<'a>>
        ensures { option_map name_of result ≡ slice_get (symbols (grammar_of self.now)) symbol }
    {
        // Not `nth` of a chain, which goes through the names before it.
        let terminals = self.terminals.len();
        if symbol < terminals {
            return self.terminals.get(symbol).copied();
        }
        self.nonterminals.get(symbol - terminals).copied()
    }

    // The number of the symbol of equal name; terminals come first.
    pub fn symbol_of(&self, name: &Name) -> Option<usize>
        ensures { result ≡ position (symbols (grammar_of self.now)) (name_of name.now) }
    {
        // One search after the other: a chain tests at each name which of the two it is in.
        match position_of(&self.terminals, name) {
            Some(symbol) => Some(symbol),
            None => {
                let symbol = position_of(&self.nonterminals, name)?;
                Some(self.terminals.len() + symbol)
            }
        }
    }
}
