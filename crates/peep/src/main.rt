//! The program: hands the words of the command line, the files and standard output to the top call `peep`, and exits with its status.
#![tactic(auto)]

ghost use Rattle.std.specs.Prelude.{◌≡◌, ◌<◌, IfOk, drop, map, option_map, string_bytes};
ghost use Rattle.std.specs.Vec.Iter.{into_iter_items};
ghost use Rattle.outer_store.specs.Answers.{Grows, SinkGrows};
ghost use Rattle.audit_cli.specs.Peep.{Peeps};
ghost use Rattle.peep.specs.Words.{word_of};

use audit_cli::{Status, peep};
use outer_store::{RealSink, RealStore, Sink, Store};
use std::alloc::{AllocError, Global};
use std::env::{self, Args};
use std::io::ErrorKind;
use std::marker::Brand;
use std::process::ExitCode;
use std::sync::ledger::{Blank, Ledger as Name};
use step_ledger::{Free, Steps};

/// The words after the program's name.
fn words_of(alloc: Global, mut args: Args<Global>) -> Result<Vec<String>, AllocError>
    ensures { IfOk result (λ words. words.items ≡ drop 1 (into_iter_items args)) }
{
    let _name = args.next();
    let mut words = Vec::new(alloc);
    for word in args {
        words.push(word)?;
    }
    Ok(words)
}

/// The word that is written to standard error for a status, if any.
fn word_for(status: Status) -> Option<&'static str>
    ensures { option_map (λ s. s.now) result ≡ word_of status }
{
    match status {
        Status::Done | Status::Refused => None,
        Status::Usage => Some("usage"),
        Status::StoreFault => Some("store"),
        Status::SinkFault => Some("sink"),
        Status::Memory => Some("memory"),
        Status::TooBig => Some("big"),
        Status::Missing => Some("missing"),
    }
}

/// Runs the words with a step counter that exists in contracts alone.
fn run<N: Name, S: Store, O: Sink>(
    alloc: Global,
    words: &[String],
    store: &mut S,
    sink: &mut O,
    blank: Blank,
) -> Status
    requires name { blank.name ≡ N.name }
    requires parts { blank.parts ≡ N.parts }
    requires some { 0 < blank.parts }
    ensures peeps { Peeps (map string_bytes words.now) (S.seen store.old) (S.seen store.new) (O.sunk sink.old) (O.sunk sink.new) result }
    ensures grows { Grows (S.seen store.old) (S.seen store.new) }
    ensures sink_grows { SinkGrows (O.sunk sink.old) (O.sunk sink.new) }
{
    let mut steps = Steps::new(Free::<N>::new(blank));
    peep(alloc, words, store, sink, &mut steps)
}

fn main(rt: HostRuntime) -> ExitCode {
    let status = match env::args(&rt) {
        Err(error) if error.kind() == ErrorKind::OutOfMemory => Status::Memory,
        Err(_) => Status::Usage,
        Ok(args) => match words_of(rt.alloc(), args) {
            Err(_) => Status::Memory,
            Ok(words) => {
                let mut store = RealStore::new(rt);
                let mut sink = RealSink::new(rt);
                run::<Brand, RealStore<HostRuntime>, RealSink<HostRuntime>>(
                    rt.alloc(),
                    &words,
                    &mut store,
                    &mut sink,
                    Blank::new(1),
                )
            }
        },
    };
    if let Some(word) = word_for(status) {
        let _ = eprintln!(rt; "{word}");
    }
    ExitCode::from(status.code())
}
