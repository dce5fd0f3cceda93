//! The lines that `trace` prints: one for each event, and a last one for the number of steps and how the run stands.
ghost use Rattle.std.specs.Prelude.{◌≡◌, ◌++◌, codes, IfOk, OnOk};
ghost use Rattle.thumb_machine.specs.Outside.{event_of, events_of};
ghost use Rattle.audit_cli.specs.Printed.{printed, and_number};
ghost use Rattle.audit_cli.specs.Trace.{word_text as word_text_of, and_word, and_words, event_line, event_lines as event_lines_of, steps_line as steps_line_of};

use ascii_scan::hex_digit;
use std::alloc::{AllocError, Global};
use thumb_machine::{Event, Stage, stage_word};

/// A word's eight digits, the highest first.
fn word_text(word: u32) -> [u8; 8]
    ensures { result ≡ word_text_of word }
{
    [
        hex_digit(word / 0x1000_0000),
        hex_digit(word / 0x100_0000 % 16),
        hex_digit(word / 0x10_0000 % 16),
        hex_digit(word / 0x1_0000 % 16),
        hex_digit(word / 0x1000 % 16),
        hex_digit(word / 0x100 % 16),
        hex_digit(word / 0x10 % 16),
        hex_digit(word % 16),
    ]
}

/// Adds a blank and a word in hexadecimal.
fn add_word(line: &mut Vec<u8>, word: u32) -> Result<(), AllocError>
    ensures { OnOk result (line.new.items ≡ line.old.items ++ and_word word) }
{
    let text = word_text(word);
    line.push(b' ')?;
    line.extend_from_slice(&text)?;
    Ok(())
}

/// Adds words in hexadecimal, each after a blank.
fn add_words(line: &mut Vec<u8>, words: &[u32]) -> Result<(), AllocError>
    ensures { OnOk result (line.new.items ≡ line.old.items ++ and_words words.now) }
{
    for word in words {
        add_word(line, *word)?;
    }
    Ok(())
}

/// Adds a blank and a decimal number.
fn add_number(alloc: Global, line: &mut Vec<u8>, number: u32) -> Result<(), AllocError>
    ensures { OnOk result (line.new.items ≡ line.old.items ++ and_number number) }
{
    let text = format!(in alloc; " {number}")?;
    line.extend_from_slice(text.as_bytes())?;
    Ok(())
}

/// `NAME WORD`
fn word_line(alloc: Global, name: &[u8], word: u32) -> Result<Vec<u8>, AllocError>
    ensures { IfOk result (λ v. v.items ≡ printed (name.now ++ and_word word)) }
{
    let mut line = name.to_vec(alloc)?;
    add_word(&mut line, word)?;
    line.push(b'\n')?;
    Ok(line)
}

/// `NAME WORD WORD ..`
fn words_line(alloc: Global, name: &[u8], word: u32, more: &[u32]) -> Result<Vec<u8>, AllocError>
    ensures { IfOk result (λ v. v.items ≡ printed (name.now ++ and_word word ++ and_words more.now)) }
{
    let mut line = name.to_vec(alloc)?;
    add_word(&mut line, word)?;
    add_words(&mut line, more)?;
    line.push(b'\n')?;
    Ok(line)
}

/// `load A S`
fn load_line(alloc: Global, address: u32, size: u32) -> Result<Vec<u8>, AllocError>
    ensures { IfOk result (λ v. v.items ≡ printed (codes "load" ++ and_word address ++ and_number size)) }
{
    let mut line = b"load".to_vec(alloc)?;
    add_word(&mut line, address)?;
    add_number(alloc, &mut line, size)?;
    line.push(b'\n')?;
    Ok(line)
}

/// `store A S V`
fn store_line(alloc: Global, address: u32, size: u32, value: u32) -> Result<Vec<u8>, AllocError>
    ensures { IfOk result (λ v. v.items ≡ printed (codes "store" ++ and_word address ++ and_number size ++ and_word value)) }
{
    let mut line = b"store".to_vec(alloc)?;
    add_word(&mut line, address)?;
    add_number(alloc, &mut line, size)?;
    add_word(&mut line, value)?;
    line.push(b'\n')?;
    Ok(line)
}

/// `sys CODE V ..`
fn sys_line(alloc: Global, code: u32, values: &[u32]) -> Result<Vec<u8>, AllocError>
    ensures { IfOk result (λ v. v.items ≡ printed (codes "sys" ++ and_number code ++ and_words values.now)) }
{
    let mut line = b"sys".to_vec(alloc)?;
    add_number(alloc, &mut line, code)?;
    add_words(&mut line, values)?;
    line.push(b'\n')?;
    Ok(line)
}

/// The line of an event.
fn event_line(alloc: Global, event: &Event) -> Result<Vec<u8>, AllocError>
    ensures { IfOk result (λ v. v.items ≡ event_line (event_of event.now)) }
{
    match event {
        Event::Load { address, size } => load_line(alloc, *address, *size),
        Event::Store {
            address,
            size,
            value,
        } => store_line(alloc, *address, *size, *value),
        Event::Call { word, arguments } => words_line(alloc, b"call", *word, arguments),
        Event::Sys { code, values } => sys_line(alloc, *code, values.as_slice()),
        Event::Left { word, registers } => words_line(alloc, b"left", *word, registers),
        Event::Fault { address } => word_line(alloc, b"fault", *address),
        Event::Astray { word } => word_line(alloc, b"astray", *word),
        Event::Fell => b"fell\n".to_vec(alloc),
    }
}

/// The lines of events.
fn event_lines(alloc: Global, events: &[Event]) -> Result<Vec<u8>, AllocError>
    ensures { IfOk result (λ v. v.items ≡ event_lines_of (events_of events.now)) }
{
    let mut lines = Vec::new(alloc);
    for event in events {
        let line = event_line(alloc, event)?;
        lines.extend_from_slice(&line)?;
    }
    Ok(lines)
}

/// `steps N STAGE`
fn steps_line(alloc: Global, taken: u32, stage: Stage) -> Result<Vec<u8>, AllocError>
    ensures { IfOk result (λ v. v.items ≡ steps_line_of taken stage) }
{
    let word = stage_word(stage);
    let text = format!(in alloc; "steps {taken} {word}\n")?;
    Ok(text.into_bytes())
}

/// All lines of a run: its events, how many steps were taken, and how it stands.
pub(crate) fn run_lines(
    alloc: Global,
    events: &[Event],
    taken: u32,
    stage: Stage,
) -> Result<Vec<u8>, AllocError>
    ensures { IfOk result (λ v. v.items ≡ event_lines_of (events_of events.now) ++ steps_line_of taken stage) }
{
    let mut lines = event_lines(alloc, events)?;
    let last = steps_line(alloc, taken, stage)?;
    lines.extend_from_slice(&last)?;
    Ok(lines)
}
