//! The top call: all that the program does with its words, its files and its output. The program's headline theorem is a clause of its contract.
ghost use Rattle.std.specs.Prelude.{map, string_bytes};
ghost use Rattle.outer_store.specs.Answers.{Grows, SinkGrows};
ghost use Rattle.command_line.specs.Request.{request_of};
ghost use Rattle.command_runs.specs.Runs.{Runs};
ghost use Rattle.audit_cli.specs.Peep.{plan_of, Peeps};

use crate::audit::Audit;
use crate::demo::Demo;
use crate::export::Export;
use crate::generalising::Generalise;
use crate::learn::{Learn, LearnByCosts};
use crate::rewrite::Rewrite;
use crate::tidy::Tidy;
use crate::trace::Trace;
use crate::trim::Trim;
use crate::upgrade::Upgrade;
use command_line::{Command, usage_of};
use command_runs::{Status, run};
use outer_store::{Sink, Store};
use std::alloc::Global;
use step_ledger::{Ledger, Steps};

/// Runs a command.
fn run_command<S: Store, O: Sink, L: Ledger>(
    alloc: Global,
    command: &Command,
    store: &mut S,
    sink: &mut O,
    steps: &mut Steps<L>,
) -> Status
    ensures runs { Runs (plan_of (request_of command.now)) (S.seen store.old) (S.seen store.new) (O.sunk sink.old) (O.sunk sink.new) result }
    ensures grows { Grows (S.seen store.old) (S.seen store.new) }
    ensures sink_grows { SinkGrows (O.sunk sink.old) (O.sunk sink.new) }
{
    match command {
        Command::Rewrite {
            table,
            listing,
            out,
            image,
            base,
        } => {
            let rewrite = Rewrite {
                out: out.as_str(),
                image: image.as_str(),
                base: *base,
            };
            let names = [table.as_str(), listing.as_str()];
            return run(alloc, &rewrite, &names, store, sink, steps);
        }
        Command::Audit { table } => {
            let names = [table.as_str()];
            return run(alloc, &Audit, &names, store, sink, steps);
        }
        Command::Learn {
            listing,
            out,
            cost_text,
            options,
        } => {
            let out = out.as_str();
            match cost_text {
                None => {
                    let learn = Learn {
                        out,
                        options,
                        costs: None,
                    };
                    let names = [listing.as_str()];
                    return run(alloc, &learn, &names, store, sink, steps);
                }
                Some(cost_text) => {
                    let learn = LearnByCosts { out, options };
                    let names = [listing.as_str(), cost_text.as_str()];
                    return run(alloc, &learn, &names, store, sink, steps);
                }
            }
        }
        Command::Export {
            table,
            entry,
            cnf,
            lrat,
        } => {
            let export = Export {
                entry: *entry,
                cnf: cnf.as_str(),
                lrat: lrat.as_str(),
            };
            let names = [table.as_str()];
            return run(alloc, &export, &names, store, sink, steps);
        }
        Command::Trace {
            listing,
            label,
            steps: most,
        } => {
            let trace = Trace {
                label: label.as_str(),
                most: *most,
            };
            let names = [listing.as_str()];
            return run(alloc, &trace, &names, store, sink, steps);
        }
        Command::Demo { windows } => {
            let demo = Demo { windows: *windows };
            let names: [&str; 0] = [];
            return run(alloc, &demo, &names, store, sink, steps);
        }
        Command::Upgrade { table, out } => {
            let upgrade = Upgrade { out: out.as_str() };
            let names = [table.as_str()];
            return run(alloc, &upgrade, &names, store, sink, steps);
        }
        Command::Trim { table, out } => {
            let trim = Trim { out: out.as_str() };
            let names = [table.as_str()];
            return run(alloc, &trim, &names, store, sink, steps);
        }
        Command::Tidy { listing, out, base } => {
            let tidy = Tidy {
                out: out.as_str(),
                base: *base,
            };
            let names = [listing.as_str()];
            return run(alloc, &tidy, &names, store, sink, steps);
        }
        Command::Generalise {
            table,
            entry,
            number,
            low,
            high,
            out,
        } => {
            let generalise = Generalise {
                entry: *entry,
                number: *number,
                low: *low,
                high: *high,
                out: out.as_str(),
            };
            let names = [table.as_str()];
            return run(alloc, &generalise, &names, store, sink, steps);
        }
    }
}

/// Does what the words after the program's name ask for, over the texts of a store, and prints to a sink.
///
/// The status is `Usage` if and only if the words are no command line, unless memory runs out. Else the command fetches its texts, keeps what is to be kept,
/// and puts its lines as one piece. `Runs` says for each status what was done to the store and the sink; `IsRewriting`, the program's headline, says what
/// `rewrite` does.
#[tactic(auto, using(crate::proofs::PeepLemmas::ran, crate::proofs::PeepLemmas::untouched))]
pub fn peep<S: Store, O: Sink, L: Ledger>(
    alloc: Global,
    words: &[String],
    store: &mut S,
    out: &mut O,
    steps: &mut Steps<L>,
) -> Status
    ensures peeps { Peeps (map string_bytes words.now) (S.seen store.old) (S.seen store.new) (O.sunk out.old) (O.sunk out.new) result }
    ensures grows { Grows (S.seen store.old) (S.seen store.new) }
    ensures sink_grows { SinkGrows (O.sunk out.old) (O.sunk out.new) }
{
    match usage_of(alloc, words) {
        Err(_) => return Status::Memory,
        Ok(None) => return Status::Usage,
        Ok(Some(command)) => return run_command(alloc, &command, store, out, steps),
    }
}
