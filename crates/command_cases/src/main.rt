//! Runs the commands by a script from standard input, and shows of each its status, what it prints and what it keeps. The gate compares this with `stdout`.
//!
//! `script` says what a line may be. A line that can't be carried out, or for which memory runs out, is answered by `?`.
#![tactic(auto)]

mod images;
mod page;
mod runs;
mod script;
mod shown;

use crate::page::Page;
use crate::script::Script;
use outer_store::{RealSink, RealStore, Sink, SinkError, Store};
use std::alloc::Global;
use std::{fs, io};

/// Carries out a line and shows what it is to show.
fn obey<S: Store, O: Sink>(
    alloc: Global,
    script: &mut Script,
    line: &str,
    files: &mut S,
    output: &mut O,
) -> Result<(), SinkError> {
    let mut page = Page::new(alloc);
    let done = script.obey(line, files, output, &mut page);
    page.note(done.is_some());
    page.put(output)
}

/// Carries out all lines.
fn obey_all<S: Store, O: Sink>(
    rt: &HostRuntime,
    script: &mut Script,
    input: &str,
    files: &mut S,
    output: &mut O,
) -> io::Result<()> {
    for line in input.split('\n') {
        if let Some(name) = line.strip_prefix("remove ") {
            fs::remove_file(rt, name)?;
        } else if obey(rt.alloc(), script, line, files, output).is_err() {
            return Ok(());
        }
    }
    Ok(())
}

fn main(rt: HostRuntime) -> io::Result<()> {
    let input = io::read_to_string(rt.alloc(), rt.reader())?;
    let mut files = RealStore::new(rt.clone()?);
    let mut output = RealSink::new(rt.clone()?);
    let mut script = Script::new(rt.alloc());
    obey_all(&rt, &mut script, &input, &mut files, &mut output)
}
