// The command line.
ghost use Rattle.std.specs.Prelude.{◌≡◌, Some, codes, map, string_bytes};
ghost use Rattle.std.specs.Result.{result_ok};
ghost use Rattle.report.specs.declared.command.TheConstants.{USAGE};
ghost use Rattle.report.specs.Actions.{action_of, asked, format_named, formatted, report_of};
ghost use Rattle.report.specs.Commands.{command_of};

use std::error::Error;
use std::fmt;
use std::str::FromStr;

pub const USAGE: &str = "usage:
  yewdarts                                     report on a sample grammar
  yewdarts report [--format text|tsv] FILE...  report on each file
  yewdarts help                                print this text
";

// How a report is written.
#[derive(Clone, Copy, Debug, PartialEq, Eq)]
pub enum Format {
    Text,
    // Fields separated by tabs.
    Tsv,
}

// What the arguments ask for. It borrows nothing of them.
#[derive(Clone, Copy, Debug, PartialEq, Eq)]
pub enum Command {
    // Report on a sample grammar.
    Sample,
    Help,
    // Report on the files, which are the arguments from number `first` on.
    Report { format: Format, first: usize },
    // The arguments are none of these.
    Usage,
}

// What the arguments ask for, with the files themselves.
#[derive(Clone, Copy, Debug, PartialEq, Eq)]
pub enum Action<'a> {
    // Report on a sample grammar.
    Sample,
    Help,
    Report { format: Format, files: &'a [String] },
}

// The arguments ask for nothing.
#[derive(Clone, Copy, Debug, PartialEq, Eq)]
pub struct UsageError;

impl fmt::Display for UsageError {
    ghost output = { λ _. Some USAGE.now };

    fn fmt<W: fmt::Write>(&self, f: &mut fmt::Formatter<W>) -> fmt::Result {
        f.write_str(USAGE)
    }
}

impl Error for UsageError {}

impl FromStr for Format {
    type Err = UsageError;

    ghost from_str_gives = { λ word r. result_ok r ≡ format_named word };

    fn from_str(word: &str) -> Result<Format, UsageError> {
        match word {
            "text" => Ok(Format::Text),
            "tsv" => Ok(Format::Tsv),
            _ => Err(UsageError),
        }
    }
}

// The arguments after `--format`.
fn parse_formatted(args: &[String]) -> Result<Action<'_>, UsageError>
    ensures { asked result ≡ formatted string_bytes args.now }
{
    match args {
        [format, files @ ..] if !files.is_empty() => Ok(Action::Report {
            format: format.parse()?,
            files,
        }),
        _ => Err(UsageError),
    }
}

// The arguments after `report`.
fn parse_report(args: &[String]) -> Result<Action<'_>, UsageError>
    ensures { asked result ≡ report_of string_bytes args.now }
{
    match args {
        [] => Err(UsageError),
        [word, rest @ ..] if word.as_str() == "--format" => parse_formatted(rest),
        files => Ok(Action::Report {
            format: Format::Text,
            files,
        }),
    }
}

// The arguments after the program's name.
pub fn parse_action(args: &[String]) -> Result<Action<'_>, UsageError>
    ensures { asked result ≡ action_of string_bytes args.now }
{
    let [word, rest @ ..] = args else {
        return Ok(Action::Sample);
    };
    match word.as_str() {
        "help" if rest.is_empty() => Ok(Action::Help),
        "report" => parse_report(rest),
        _ => Err(UsageError),
    }
}

// The same, and it cannot fail.
pub fn parse(args: &[String]) -> Command
    ensures { result ≡ command_of (map string_bytes args.now) }
{
    match parse_action(args) {
        Ok(Action::Sample) => Command::Sample,
        Ok(Action::Help) => Command::Help,
        Ok(Action::Report { format, files }) => Command::Report {
            format,
            first: args.len() - files.len(),
        },
        Err(UsageError) => Command::Usage,
    }
}
