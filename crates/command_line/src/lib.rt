//! The command line: what the words after the program's name ask for.
//!
//! `specs/Words.antt` and `specs/CommandLine.antt` define what a command line is, without reference to clap. clap parses the words (`app`), `values` reads
//! the numerals and checks their limits, and the contract of `usage_of` says that both together implement that definition.
//!
//! A further command needs a variant of `Command`, a form with its name, options and request in `specs/CommandLine.antt`, the names of its
//! words in `specs/App.antt`, a case in `specs/Request.antt`, a call in `app`, a function in `values`, and in the proofs a line in `Added.antt`
//! and in each lemma of `Forms.antt`, `Top.antt` and `Requests.antt` that goes case by case over the forms.
#![tactic(auto)]

ghost use Rattle.std.specs.Prelude.{◌≡◌, ◌≢◌, [], All, IfOk, MatchOption, map, string_bytes};
ghost use Rattle.std.specs.Str.{IsUtf8};
ghost use Rattle.clap.specs.Words.{fault_of, subcommand_of, subcommand_rows_of};
ghost use Rattle.command_line.specs.App.{peep_app};
ghost use Rattle.command_line.specs.CommandLine.{AskFor, AskOnce, Request};
ghost use Rattle.command_line.specs.Request.{request_of};

mod app;
mod command;
mod values;

use clap::ArgMatches;
use clap::error::ErrorKind;
pub use command::{Base, Command};
use std::alloc::{AllocError, Global};

/// The words as string slices.
fn texts_of<'a>(alloc: Global, words: &'a [String]) -> Result<Vec<&'a str>, AllocError>
    ensures same { IfOk result (λ texts. map (λ t. t.now) texts.items ≡ map string_bytes words.entry.now) }
    ensures text { IfOk result (λ texts. All (λ t. IsUtf8 t.now) texts.items) }
{
    let mut texts = Vec::new(alloc);
    for word in words {
        let text = word.as_str();
        texts.push(text)?;
    }
    Ok(texts)
}

/// What clap makes of the words, or None where it refuses them.
fn matches_of<'a>(alloc: Global, words: &'a [&'a str]) -> Result<Option<ArgMatches<'a>>, AllocError>
    ensures { IfOk result (λ o. MatchOption o (fault_of peep_app (map (λ t. t.now) words.entry.now) ≢ [])
        (λ m. (fault_of peep_app (map (λ t. t.now) words.entry.now) ≡ [])
        × (subcommand_rows_of m ≡ subcommand_of peep_app (map (λ t. t.now) words.entry.now)))) }
{
    match app::peep(alloc)?.try_get_matches_from(words) {
        Ok(matches) => Ok(Some(matches)),
        Err(error) => {
            if error.kind() == ErrorKind::OutOfMemory {
                Err(AllocError)
            } else {
                Ok(None)
            }
        }
    }
}

/// The command that the words after the program's name ask for, or None if they are no command line. The only error is lack of memory.
pub fn usage_of(alloc: Global, words: &[String]) -> Result<Option<Command>, AllocError>
    ensures exact { IfOk result (λ o. MatchOption o
        ((r : Request) → AskFor (map string_bytes words.now) r → ⊥)
        (λ c. AskFor (map string_bytes words.now) (request_of c))) }
{
    let texts = texts_of(alloc, words)?;
    match matches_of(alloc, texts.as_slice())? {
        Some(matches) => Ok(values::command_of(alloc, &matches)?),
        None => Ok(None),
    }
}

/// Words ask for at most one command.
pub fn words_ask_once()
    ensures { AskOnce }
{}
