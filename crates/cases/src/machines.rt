//! Cases of listings that run: `named BASE TEXT`, `fits NAMES RETURNS HIGH TEXT` and `run NAMES RETURNS HIGH ANSWERS STEPS TEXT`.
use crate::case::Case;
use indexmap::IndexMap;
use label_layout::layout;
use listing_parser::Listing;
use std::alloc::Global;
use thumb_machine::{Answer, Answers, Bytes, Event, Machine, Naming, State, stage_word};

/// Whether the naming that a layout from a base gives fits the listing.
pub(crate) fn named(listing: &Listing, case: &mut Case<'_>) -> Option<()> {
    let base = case.hex();
    let laid = layout(case.alloc, listing, base).ok()?;
    let naming = Naming::laid(case.alloc, listing, &laid).ok()?;
    case.add(u8::from(naming.fits(listing)));
    Some(())
}

/// Adds a name and its word, as `f=1`.
fn add_name(alloc: Global, words: &mut IndexMap<Vec<u8>, u32>, pair: &str) -> Option<()> {
    let (name, word) = pair.split_once('=')?;
    let word = u32::from_str_radix(word, 16).ok()?;
    let name = name.as_bytes().to_vec(alloc).ok()?;
    words.insert(name, word).ok()?;
    Some(())
}

/// The words for names, as `f=1,g=5`.
fn words_of(alloc: Global, pairs: &str) -> Option<IndexMap<Vec<u8>, u32>> {
    let mut words = IndexMap::new(alloc);
    for pair in pairs.split(',') {
        add_name(alloc, &mut words, pair)?;
    }
    Some(words)
}

/// The decimal numbers of a word, separated by commas; `-` stands for none.
fn numbers_of(alloc: Global, word: &str) -> Option<Vec<u32>> {
    let mut numbers = Vec::new(alloc);
    if word != "-" {
        for number in word.split(',') {
            numbers.push(number.parse().ok()?).ok()?;
        }
    }
    Some(numbers)
}

/// The naming with these words for names, as `f=1,g=5`, and for return points, as `7,9`, and a code range from 0 up to but not including an address.
fn naming_of(case: &mut Case<'_>) -> Option<Naming> {
    let pairs = case.word();
    let returns = numbers_of(case.alloc, case.word())?;
    let high = case.number();
    let words = words_of(case.alloc, pairs)?;
    Some(Naming::new(words, returns, 0, high))
}

/// Whether a naming fits a listing.
pub(crate) fn fits(listing: &Listing, case: &mut Case<'_>) -> Option<()> {
    let naming = naming_of(case)?;
    case.add(u8::from(naming.fits(listing)));
    Some(())
}

/// An answer: a word in all registers, and one byte.
fn answer(alloc: Global, word: u32) -> Option<Answer> {
    let bytes = vec![in alloc; (0x2000_0000, 7)].ok()?;
    Some(Answer {
        words: [word; 6],
        nzcv: 0,
        bytes: Bytes::new(bytes),
    })
}

/// An answer for each word.
fn answers_of(case: &mut Case<'_>) -> Option<Answers> {
    let words = numbers_of(case.alloc, case.word())?;
    let mut list = Vec::new(case.alloc);
    for word in &words {
        list.push(answer(case.alloc, *word)?).ok()?;
    }
    Some(Answers::new(list))
}

/// The state in which runs start, at place 0: all zero but sp, 0x20001000, and lr, 0xffffffff.
fn start(alloc: Global) -> State {
    State {
        r: [0; 13],
        sp: 0x2000_1000,
        lr: 0xffff_ffff,
        nzcv: 0,
        bytes: Bytes::new(Vec::new(alloc)),
        place: 0,
    }
}

/// Adds a word and numbers.
fn add_all(word: &str, numbers: &[u32], case: &mut Case<'_>) {
    case.add(word);
    case.add_hexes(numbers);
}

fn add_event(event: &Event, case: &mut Case<'_>) {
    match event {
        Event::Load { address, size } => add_all("load", &[*address, *size], case),
        Event::Store {
            address,
            size,
            value,
        } => add_all("store", &[*address, *size, *value], case),
        Event::Call { word, arguments } => {
            add_all("call", &[*word], case);
            case.add_hexes(arguments);
        }
        Event::Sys { code, values } => {
            case.add("system");
            case.add(*code);
            case.add_hexes(values.as_slice());
        }
        Event::Left { word, registers } => {
            add_all("leave", &[*word], case);
            case.add_hexes(registers);
        }
        Event::Fault { address } => add_all("fault", &[*address], case),
        Event::Astray { word } => add_all("astray", &[*word], case),
        Event::Fell => case.add("fell"),
    }
}

/// Takes a step and adds how the run stands then, and the events of the step.
fn add_step(machine: &mut Machine, answers: &mut Answers, case: &mut Case<'_>) {
    let before = machine.events().len();
    match machine.step(answers) {
        Ok(stage) => case.add(stage_word(stage)),
        Err(_) => case.end(None),
    }
    for event in machine.events().iter().skip(before) {
        add_event(event, case);
    }
    case.end_line();
}

/// Takes the steps that the arguments ask for, with their answers, and adds a line for each, and how many answers are left.
fn add_steps(machine: &mut Machine, case: &mut Case<'_>) -> Option<()> {
    let mut answers = answers_of(case)?;
    for _ in 0..case.number() {
        add_step(machine, &mut answers, case);
    }
    case.add(answers.left().len());
    Some(())
}

/// The machine that stands at the start of a listing, with the naming that the arguments say.
fn machine_of(listing: &Listing, case: &mut Case<'_>) -> Option<Machine> {
    let naming = naming_of(case)?;
    Machine::new(case.alloc, listing, &naming, &start(case.alloc)).ok()
}

/// The steps of a run, a line each, and how many answers are left.
pub(crate) fn run(listing: &Listing, case: &mut Case<'_>) -> Option<()> {
    let mut machine = machine_of(listing, case)?;
    add_steps(&mut machine, case)
}
