// Command lines, and lines that are written, on examples.
use crate::command::{Action, Command, Format, UsageError, parse, parse_action};
use crate::lines::refusal_line;
use crate::reports::text_report;
use entries::grammar::GrammarMemory;
use entries::grammar::load::load_grammar;
use entries::sample::sample_grammar;
use entry_format::fault::LoadFault;
use std::alloc::{AllocError, Global};
use std::test::Fail;

// A loop, since each string is allocated: in a chain the closure's result would have to be written out.
fn strings(heap: Global, words: &[&str]) -> Result<Vec<String>, AllocError> {
    let mut strings = Vec::new(heap);
    for word in words {
        strings.push(String::from_str(heap, word)?)?;
    }
    Ok(strings)
}

fn parse_words(heap: Global, words: &[&str]) -> Result<Command, AllocError> {
    let args = strings(heap, words)?;
    Ok(parse(&args))
}

#[test]
fn parses_command_lines(rt: HostRuntime) -> Result<(), Fail> {
    let heap = rt.alloc();
    assert_eq!(rt; parse_words(heap, &[])?, Command::Sample);
    assert_eq!(rt; parse_words(heap, &["help", "report"])?, Command::Usage);
    assert_eq!(rt;
        parse_words(heap, &["report", "a", "b"])?,
        Command::Report {
            format: Format::Text,
            first: 1,
        }
    );
    assert_eq!(rt;
        parse_words(heap, &["report", "--format", "tsv", "a"])?,
        Command::Report {
            format: Format::Tsv,
            first: 3,
        }
    );
    assert_eq!(rt;
        parse_words(heap, &["report", "--format", "tsv"])?,
        Command::Usage
    );
    Ok(())
}

#[test]
fn parses_files(rt: HostRuntime) -> Result<(), Fail> {
    let heap = rt.alloc();
    let cases: [(&[&str], Format, &[&str]); 2] = [
        (&["report", "a", "b"], Format::Text, &["a", "b"]),
        (&["report", "--format", "tsv", "a"], Format::Tsv, &["a"]),
    ];
    for (words, format, files) in cases {
        let args = strings(heap, words)?;
        let files = strings(heap, files)?;
        assert_eq!(rt;
            parse_action(&args),
            Ok(Action::Report {
                format,
                files: &files
            })
        );
    }
    Ok(())
}

#[test]
fn parses_no_files(rt: HostRuntime) -> Result<(), Fail> {
    let heap = rt.alloc();
    assert_eq!(rt; parse_action(&[]), Ok(Action::Sample));
    let help = strings(heap, &["help", "report"])?;
    assert_eq!(rt; parse_action(&help), Err(UsageError));
    let format = strings(heap, &["report", "--format", "tsv"])?;
    assert_eq!(rt; parse_action(&format), Err(UsageError));
    Ok(())
}

#[test]
fn tells_a_refusal(rt: HostRuntime) -> Result<(), Fail> {
    let line = refusal_line(rt.alloc(), "a.bin", LoadFault::TrailingBytes { place: 35 })?;
    assert_eq!(rt;
        line.as_str(),
        "a.bin: refused with number 9 by the section layer at byte 35: there are bytes after the end\n"
    );
    Ok(())
}

#[test]
fn reports_on_the_sample(rt: HostRuntime) -> Result<(), Fail> {
    let heap = rt.alloc();
    let grammar = load_grammar(sample_grammar(), GrammarMemory::reserve(heap)?)?;
    let report = text_report(heap, "sample", &grammar)?;
    assert_eq!(rt;
        report.as_str(),
        "sample: grammar with 2 terminals, 2 nonterminals, 3 productions and 4 right-side names
symbol 0: terminal a
symbol 1: terminal b
symbol 2: nonterminal S, the start symbol
symbol 3: nonterminal T
production 0 of S, right-side names: 2
  reference 0 at byte 19: T is symbol 3
  reference 1 at byte 21: b is symbol 1
production 1 of T, right-side names: 2
  reference 2 at byte 27: a is symbol 0
  reference 3 at byte 29: T is symbol 3
production 2 of T, right-side names: 0
"
    );
    Ok(())
}
