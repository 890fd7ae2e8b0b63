//! What a command line asks for.
ghost use Rattle.std.specs.Prelude.{◌≡◌, ◌≢◌, [], false, IfOk, IfErr, IfSome, IsErrOf, map, option_map};
ghost use Rattle.std.specs.String.{string_bytes};
ghost use Rattle.clap.specs.Words.{app_of, fault_of, found_of, kind_of, rows_of, rule_of};
ghost use Rattle.clap.specs.declared.error.kind.ErrorKind.TheVariants.{OutOfMemory};
ghost use Rattle.ce_words.specs.Line.{IsCommandLine, IsNumber, asks_serial, line_of_words, load_rule, load_text, number_of, ce_program, rows, serial_rule};
ghost use Rattle.ce_words.specs.declared.line.CommandLineError.TheVariants.{Usage};

use ce_model::NoMemory;
use clap::error::ErrorKind;
use clap::{Arg, ArgAction, ArgMatches, Command, Error, value_parser};
use std::alloc::{AllocError, Global};
use thiserror::Error as DeriveError;

/// What a command line asks for.
#[derive(Clone, Copy, Debug, PartialEq, Eq)]
pub struct CommandLine {
    /// Users and nodes take their turns on one thread.
    pub is_serial: bool,
    /// The load that is made from this number is run, in place of a script.
    pub load: Option<u32>,
}

/// Why a command line says nothing.
#[derive(Clone, Copy, Debug, PartialEq, Eq, DeriveError)]
pub enum CommandLineError {
    /// It has a word that the program doesn't know, a word too many, or a number that is none.
    #[error("usage")]
    Usage,
    /// There is no memory to read it.
    #[error("{0}")]
    Memory(NoMemory),
}

/// Reads the words behind the program's name: the flag `--serial`, and the option `--load N` with N
/// from 0 to 4,294,967,295, each once at most. What a line means, and whether it is refused, is
/// what `clap` says of this command. `Usage` where it is refused; `Memory` may come at any time.
pub fn read_line(alloc: Global, words: &[String]) -> Result<CommandLine, CommandLineError>
    ensures accepted { IfOk result (λ _. IsCommandLine (map string_bytes words.now)) }
    ensures line { IfOk result (λ line. line ≡ line_of_words (map string_bytes words.now)) }
    ensures refused { IsErrOf result Usage → ¬ IsCommandLine (map string_bytes words.now) }
{
    let matches = read_matches(alloc, words)?;
    Ok(CommandLine {
        is_serial: asks_serial(&matches),
        load: load_number(&matches)?,
    })
}

/// What the command finds in the words.
fn read_matches<'a>(alloc: Global, words: &'a [String]) -> Result<ArgMatches<'a>, CommandLineError>
    ensures faultless { IfOk result
        (λ _. fault_of ce_program (map string_bytes words.entry.now) ≡ []) }
    ensures rows { IfOk result (λ matches. rows_of (found_of matches)
        ≡ rows (map string_bytes words.entry.now)) }
    ensures refused { IsErrOf result Usage
        → fault_of ce_program (map string_bytes words.entry.now) ≢ [] }
{
    let Ok(command) = program(alloc) else {
        return Err(CommandLineError::Memory(NoMemory));
    };
    match command.try_get_matches_from(words) {
        Ok(matches) => Ok(matches),
        Err(error) => Err(line_error(&error)),
    }
}

/// The command: the flag and the option, and neither help nor version.
fn program<'a>(alloc: Global) -> Result<Command<'a>, AllocError>
    ensures { IfOk result (λ command. app_of command ≡ ce_program) }
{
    let command = Command::new(alloc, "ce")
        .no_binary_name(true)
        .disable_help_flag(true)
        .disable_version_flag(true);
    command.arg(serial_flag(alloc))?.arg(load_option(alloc))
}

fn serial_flag<'a>(alloc: Global) -> Arg<'a>
    ensures rule { rule_of result ≡ serial_rule }
    ensures local { result.global ≡ false }
{
    Arg::new(alloc, "serial")
        .long("serial")
        .action(ArgAction::SetTrue)
}

fn load_option<'a>(alloc: Global) -> Arg<'a>
    ensures rule { rule_of result ≡ load_rule }
    ensures local { result.global ≡ false }
{
    Arg::new(alloc, "load")
        .long("load")
        .value_parser(value_parser!(u32))
}

/// Whether the flag is there.
#[tactic(auto, using(crate::proofs::Found::first_by_rows))]
fn asks_serial(matches: &ArgMatches<'_>) -> bool
    ensures { result ≡ asks_serial (rows_of (found_of matches.now)) }
{
    matches.get_str("serial").is_some_and(|text| text == "true")
}

/// The number of the load, where the option is there; refused where what stands there is none.
#[tactic(auto, using(crate::proofs::Found::one_by_rows))]
fn load_number(matches: &ArgMatches<'_>) -> Result<Option<u32>, CommandLineError>
    ensures number { IfOk result (λ number. number
        ≡ option_map number_of (load_text (rows_of (found_of matches.now)))) }
    ensures is { IfOk result (λ _. IfSome (load_text (rows_of (found_of matches.now))) IsNumber) }
    ensures refused { IfErr result (λ _. ¬ IfSome (load_text (rows_of (found_of matches.now)))
        IsNumber) }
{
    match matches.try_get_one::<u32>("load") {
        Ok(number) => Ok(number),
        Err(_) => Err(CommandLineError::Usage),
    }
}

/// Why the line says nothing, by the error of its matches.
fn line_error(error: &Error) -> CommandLineError
    ensures { result ≡ Usage → kind_of error.now ≢ OutOfMemory }
{
    if error.kind() == ErrorKind::OutOfMemory {
        CommandLineError::Memory(NoMemory)
    } else {
        CommandLineError::Usage
    }
}
