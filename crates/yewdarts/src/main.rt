// Reports on entry files.
#![tactic(auto)]

use entries::grammar::load::load_grammar;
use entries::grammar::{Grammar, GrammarMemory};
use entries::sample::sample_grammar;
use entry_format::fault::LoadFault;
use report::command::{Action, Format, USAGE, parse_action};
use report::lines::{entry_row, refusal_line, refusal_row};
use report::reports::text_report;
use std::process::ExitCode;
use std::{env, fs, io};

// Prints reports in one format. There are two, with a line for each where they are told apart.
#[derive(Clone, Copy)]
struct Reporter<'a> {
    rt: &'a HostRuntime,
    format: Format,
}

impl Reporter<'_> {
    fn print_grammar(&self, file: &str, grammar: &Grammar) -> io::Result<()> {
        let heap = self.rt.alloc();
        match self.format {
            Format::Text => self.rt.print(text_report(heap, file, grammar)?),
            Format::Tsv => self.rt.print(entry_row(heap, file)?),
        }
    }

    fn print_refusal(&self, file: &str, fault: LoadFault) -> io::Result<()> {
        let heap = self.rt.alloc();
        match self.format {
            Format::Text => self.rt.eprint(refusal_line(heap, file, fault)?),
            Format::Tsv => self.rt.print(refusal_row(heap, file, fault)?),
        }
    }

    // Reports on the bytes of a file, and tells whether they were loaded.
    fn report_bytes(&self, file: &str, bytes: &[u8]) -> io::Result<bool> {
        let memory = GrammarMemory::reserve(self.rt.alloc())?;
        match load_grammar(bytes, memory) {
            Ok(grammar) => {
                self.print_grammar(file, &grammar)?;
                Ok(true)
            }
            Err(fault) => {
                self.print_refusal(file, fault)?;
                Ok(false)
            }
        }
    }

    // Reports on a file, and tells whether it was read and loaded.
    fn report_file(&self, file: &str) -> io::Result<bool> {
        match fs::read(self.rt, file) {
            Ok(bytes) => self.report_bytes(file, &bytes),
            Err(error) => {
                eprintln!(self.rt; "{file}: cannot be read: {error}")?;
                Ok(false)
            }
        }
    }

    // Reports on the files, and tells whether all were read and loaded.
    fn report_files(&self, files: &[String]) -> io::Result<bool> {
        let mut all = true;
        for file in files {
            all &= self.report_file(file)?;
        }
        Ok(all)
    }
}

// Does what the arguments ask for, and tells whether it succeeded.
fn run(rt: &HostRuntime) -> io::Result<bool> {
    let args: Vec<String> = env::args(rt)?.skip(1).collect(rt.alloc())?;
    match parse_action(&args) {
        Ok(Action::Sample) => {
            let reporter = Reporter {
                rt,
                format: Format::Text,
            };
            reporter.report_bytes("sample", sample_grammar())
        }
        Ok(Action::Help) => {
            rt.print(USAGE)?;
            Ok(true)
        }
        Ok(Action::Report { format, files }) => Reporter { rt, format }.report_files(files),
        Err(error) => {
            rt.eprint(error)?;
            Ok(false)
        }
    }
}

// Ends with status 1 if some file was refused or could not be read, the arguments were wrong, or the run ended with an error.
fn main(rt: HostRuntime) -> ExitCode {
    match run(&rt) {
        Ok(true) => ExitCode::SUCCESS,
        Ok(false) => ExitCode::FAILURE,
        Err(error) => {
            let _ = eprintln!(rt; "{error}");
            ExitCode::FAILURE
        }
    }
}
