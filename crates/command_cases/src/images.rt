//! Runs images that are given as bytes, with answers of the outside, and shows how the run stands at the end and its events.
use crate::page::Page;
use ascii_scan::number;
use std::alloc::Global;
use thumb_assembler::ImageMachine;
use thumb_machine::{Answer, Answers, Bytes, Event, Stage, State, stage_word};

/// The state in which an image starts: all zero but sp, 0x20001000, and lr, 0xffffffff.
fn start(alloc: Global) -> State {
    State {
        r: [0; 13],
        sp: 0x2000_1000,
        lr: 0xffff_ffff,
        nzcv: 0,
        bytes: Bytes::new(Vec::new(alloc)),
        place: 0,
    }
}

/// The machine that stands at the start of the image with these bytes, at 0, whose code ends at `end`.
fn machine_of(alloc: Global, digits: &str, end: u32) -> Option<ImageMachine> {
    let bytes = hex::decode(alloc, digits).ok()?;
    ImageMachine::new(alloc, &bytes, 0, end, start(alloc), 0).ok()
}

/// The answer for a word: the word in each register, the flags 0, and no bytes.
fn answer(alloc: Global, word: &str) -> Option<Answer> {
    Some(Answer {
        words: [number(word.as_bytes())?; 6],
        nzcv: 0,
        bytes: Bytes::new(Vec::new(alloc)),
    })
}

/// An answer for each word.
fn answers(alloc: Global, words: &[String]) -> Option<Answers> {
    let mut list = Vec::new(alloc);
    for word in words {
        list.push(answer(alloc, word.as_str())?).ok()?;
    }
    Some(Answers::new(list))
}

/// The word for an event.
fn event_word(event: &Event) -> &'static str {
    match event {
        Event::Load { .. } => " load",
        Event::Store { .. } => " store",
        Event::Call { .. } => " call",
        Event::Sys { .. } => " sys",
        Event::Left { .. } => " left",
        Event::Fault { .. } => " fault",
        Event::Astray { .. } => " astray",
        Event::Fell => " fell",
    }
}

/// Shows how a run stands, and its events.
fn tell(stage: Stage, events: &[Event], page: &mut Page) {
    page.add(stage_word(stage));
    page.add(":");
    for event in events {
        page.add(event_word(event));
    }
    page.add("\n");
}

/// Takes so many steps with answers of these words.
fn run(alloc: Global, machine: &mut ImageMachine, steps: u32, words: &[String]) -> Option<Stage> {
    let mut answers = answers(alloc, words)?;
    let mut stage = Stage::Going;
    for _ in 0..steps {
        stage = machine.step(&mut answers).ok()?;
    }
    Some(stage)
}

/// Runs the image that the words of a script's line give, and shows how the run stands and its events; None if a word can't be read.
pub(crate) fn image(alloc: Global, words: &[String], page: &mut Page) -> Option<()> {
    let [digits, end, steps, given @ ..] = words else {
        return None;
    };
    let steps = number(steps.as_bytes())?;
    let mut machine = machine_of(alloc, digits.as_str(), number(end.as_bytes())?)?;
    let stage = run(alloc, &mut machine, steps, given)?;
    tell(stage, machine.events(), page);
    Some(())
}
