// References of grammars.
use entries::grammar::GrammarMemory;
use entries::grammar::load::load_grammar;
use entries::resolver::GrammarResolver;
use entries::sample::sample_grammar;
use references::{Dangling, Resolver};
use std::alloc::Global;
use std::process::Abort;
use std::test::*;

// What a file's references name, from number 0 on.
fn resolves_to(
    rt: &impl Abort,
    heap: Global,
    file: &[u8],
    expected: &[Result<usize, Dangling>],
) -> Result<(), Fail> {
    let grammar = load_grammar(file, GrammarMemory::reserve(heap)?)?;
    let resolver = GrammarResolver::new(&grammar);
    for (reference, symbol) in expected.iter().enumerate() {
        assert_eq!(rt; resolver.resolve(reference), *symbol);
    }
    Ok(())
}

#[test]
fn sample_references(rt: HostRuntime) -> Result<(), Fail> {
    let expected = [Ok(3), Ok(1), Ok(0), Ok(3), Err(Dangling { reference: 4 })];
    resolves_to(&rt, rt.alloc(), sample_grammar(), &expected)
}

// S is X a S, and nothing is called X.
#[test]
fn dangling_reference(rt: HostRuntime) -> Result<(), Fail> {
    let file = [
        1, 0, 1, 1, b'a', 0, 1, 1, b'S', 0, 1, 1, b'S', 0, 3, 1, b'X', 1, b'a', 1, b'S',
    ];
    let expected = [Err(Dangling { reference: 0 }), Ok(0), Ok(1)];
    resolves_to(&rt, rt.alloc(), &file, &expected)
}
