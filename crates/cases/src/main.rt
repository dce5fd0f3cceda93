//! Calls the crates' functions by cases from standard input, and prints their answers. The gate compares these with `stdout`.
//!
//! A line `==== NAME` begins a part, whose module says what its lines may be: `listings` (`listing_part`) or `rules` (`rule_part`). Empty lines and comments,
//! which begin with `#`, are passed over. A line that can't be read, or for which memory runs out, is answered by `?`.
#![tactic(auto)]

mod arithmetic;
mod case;
mod codes;
mod costs;
mod escapes;
mod formulas;
mod learning;
mod listing_part;
mod listings;
mod living;
mod machines;
mod proofs;
mod rule_part;
mod stepping;
mod tables;
mod texts;
mod tidying;

use crate::case::Case;
use crate::rule_part::Given;
use outer_store::{RealSink, Sink, SinkError};
use std::alloc::Global;
use std::io;

/// Answers a line of a part and writes the answer.
fn answer_line<O: Sink>(
    given: &mut Given,
    is_rule: bool,
    line: &str,
    output: &mut O,
) -> Result<(), SinkError> {
    let mut case = Case::of(given.alloc, line);
    if is_rule {
        rule_part::answer(given, &mut case);
    } else {
        listing_part::answer(&mut case);
    }
    case.put(output)
}

/// Answers all lines.
fn answer_all<O: Sink>(alloc: Global, input: &str, output: &mut O) {
    let mut given = Given::new(alloc);
    let mut is_rule = false;
    for line in input.split('\n') {
        if let Some(name) = line.strip_prefix("==== ") {
            is_rule = name == "rules";
        } else if !line.is_empty() && !line.starts_with('#') {
            if answer_line(&mut given, is_rule, line, output).is_err() {
                return;
            }
        }
    }
}

fn main(rt: HostRuntime) -> io::Result<()> {
    let input = io::read_to_string(rt.alloc(), rt.reader())?;
    let mut output = RealSink::new(rt.clone()?);
    answer_all(rt.alloc(), &input, &mut output);
    Ok(())
}
