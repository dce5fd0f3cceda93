//! Reads the values of a command from what clap found: numerals in their ranges, and defaults for options that aren't given.

ghost use Rattle.std.specs.Prelude.{◌≡◌, ◌-◌, ◌≤◌, ℕ, List, All, IfOk, MatchOption, Some, length, map, option_map, option_and_then, string_bytes};
ghost use Rattle.clap.specs.Words.{first_value, found_of, subcommand_rows_of};
ghost use Rattle.command_line.specs.App.{asked_by, asked};
ghost use Rattle.command_line.specs.CommandLine.{rewrites, audits, learns, exports, traces, demos, upgrades, trims, tidies, generalises, base_of, between_commas, byte_of, number_from, pool_of, steps_of, windows_of};
ghost use Rattle.command_line.specs.Request.{request_of};
ghost use Rattle.ascii_scan.specs.Numeral.{decimal};

use super::command::{Base, Command};
use arrayvec::ArrayVec;
use ascii_scan::number;
use clap::ArgMatches;
use rule_table::LearnOptions;
use seq_enum::Pool;
use std::alloc::{AllocError, Global};
use thumb_instr::Within;

/// The base that the value of `--base` gives, 0 without the option; None if the value is no base.
fn base(given: Option<&str>) -> Option<Base>
    ensures { option_map (λ b. b.address) result ≡ base_of (option_map (λ t. t.now) given.entry) }
{
    match given {
        None => Base::new(0),
        Some(text) => match number(text.as_bytes()) {
            None => None,
            Some(address) => Base::new(address),
        },
    }
}

/// The most steps of a trace.
const STEPS_LIMIT: u32 = 1_000_000;

/// The number of steps that the word gives; None if it is no numeral or over the limit.
fn steps(word: &str) -> Option<u32>
    ensures { result ≡ steps_of word.now }
{
    number(word.as_bytes()).filter(|steps| *steps <= STEPS_LIMIT)
}

/// The number that the word gives; None if it is no numeral or over 255.
fn byte_in(word: &str) -> Option<u8>
    ensures { result ≡ byte_of word.now }
{
    match number(word.as_bytes()) {
        Some(byte) if byte <= 255 => Some(byte as u8),
        _ => None,
    }
}

/// The number of windows that the word gives; None if it is no numeral from 1 to 20,000.
fn windows(word: &str) -> Option<Within<1, 20_001>>
    ensures { option_map (λ n. n.number) result ≡ windows_of word.now }
{
    match number(word.as_bytes()) {
        None => None,
        Some(count) => Within::new(count),
    }
}

/// The value of an option, from LEAST to END - 1, or `other` if it isn't given; None if its value is no such number.
fn number_from<const LEAST: u32, const END: u32>(
    given: Option<&str>,
    other: Within<LEAST, END>,
) -> Option<Within<LEAST, END>>
    ensures { option_map (λ n. n.number) result ≡ number_from LEAST (END - 1) other.entry.number (option_map (λ t. t.now) given.entry) }
{
    match given {
        None => Some(other),
        Some(text) => match number(text.as_bytes()) {
            None => None,
            Some(number) => Within::new(number),
        },
    }
}

/// The seed that the option has, or 42 where it isn't given; None where its value is no numeral.
fn seed(given: Option<&str>) -> Option<u32>
    ensures { result ≡ number_from 0 4294967295 42 (option_map (λ t. t.now) given.entry) }
{
    match given {
        None => Some(42),
        Some(text) => number(text.as_bytes()),
    }
}

/// The value of a decimal numeral, if it is at most 255; hexadecimal ones aren't allowed here.
fn byte(word: &[u8]) -> Option<u8>
    ensures { MatchOption result ((n : ℕ) → n ≤ 255 → decimal word.now ≡ Some n → ⊥) (λ n. decimal word.now ≡ Some n) }
{
    if word.starts_with(b"0x") {
        return None;
    }
    match number(word) {
        None => None,
        Some(number) => {
            if number > 255 {
                return None;
            }
            Some(number as u8)
        }
    }
}

/// The numbers of at most 16 decimal numerals, each at most 255.
fn bytes_of(words: &[&[u8]]) -> Option<ArrayVec<u8, 16>>
    ensures { MatchOption result ((ns : List ℕ) → length ns ≤ 16 → All (λ n. n ≤ 255) ns → map (λ n. Some n) ns ≡ map (λ w. decimal w.now) words.entry.now → ⊥) (λ v. map (λ n. Some n) v.items ≡ map (λ w. decimal w.now) words.entry.now) }
{
    if words.len() > 16 {
        return None;
    }
    let mut bytes = ArrayVec::new();
    for word in words {
        match byte(word) {
            None => return None,
            Some(number) => bytes.push(number),
        }
    }
    Some(bytes)
}

/// The parts of a text between its commas.
fn between_commas(alloc: Global, bytes: &[u8]) -> Result<Vec<&[u8]>, AllocError>
    ensures { IfOk result (λ words. map (λ w. w.now) words.items ≡ between_commas bytes.entry.now) }
{
    bytes.split(|b| *b == b',').collect(alloc)
}

/// The default pool of numbers.
static DEFAULT_POOL: [u8; 9] = [0, 1, 2, 4, 8, 16, 24, 31, 255];

/// The pool that the option has, or the default one where it isn't given; None where its value is no pool.
fn pool(alloc: Global, given: Option<&str>) -> Result<Option<Pool>, AllocError>
    ensures { IfOk result (λ o. option_map (λ p. p) o ≡ pool_of (option_map (λ t. t.now) given.entry)) }
{
    match given {
        None => Ok(Pool::new(&DEFAULT_POOL)),
        Some(text) => {
            let words = between_commas(alloc, text.as_bytes())?;
            match bytes_of(&words) {
                None => Ok(None),
                Some(numbers) => Ok(Pool::new(&numbers)),
            }
        }
    }
}

/// The name that the option has, where it is given.
fn name(alloc: Global, given: Option<&str>) -> Result<Option<String>, AllocError>
    ensures { IfOk result (λ o. option_map string_bytes o ≡ option_map (λ t. t.now) given.entry) }
{
    match given {
        None => Ok(None),
        Some(name) => Ok(Some(String::from_str(alloc, name)?)),
    }
}

/// The values of `rewrite`.
fn rewrite(alloc: Global, given: &ArgMatches<'_>) -> Result<Option<Command>, AllocError>
    ensures { IfOk result (λ o. option_map request_of o ≡ asked_by rewrites (first_value (found_of given.now))) }
{
    let (Some(table), Some(listing), Some(out), Some(image), Some(base)) = (
        given.get_str("table"),
        given.get_str("listing"),
        given.get_str("out"),
        given.get_str("image"),
        base(given.get_str("base")),
    ) else {
        return Ok(None);
    };
    Ok(Some(Command::Rewrite {
        table: String::from_str(alloc, table)?,
        listing: String::from_str(alloc, listing)?,
        out: String::from_str(alloc, out)?,
        image: String::from_str(alloc, image)?,
        base,
    }))
}

/// The values of `audit`.
fn audit(alloc: Global, given: &ArgMatches<'_>) -> Result<Option<Command>, AllocError>
    ensures { IfOk result (λ o. option_map request_of o ≡ asked_by audits (first_value (found_of given.now))) }
{
    let Some(table) = given.get_str("table") else {
        return Ok(None);
    };
    Ok(Some(Command::Audit {
        table: String::from_str(alloc, table)?,
    }))
}

/// The values of `learn`.
fn learn(alloc: Global, given: &ArgMatches<'_>) -> Result<Option<Command>, AllocError>
    ensures { IfOk result (λ o. option_map request_of o ≡ asked_by learns (first_value (found_of given.now))) }
{
    let (
        Some(listing),
        Some(out),
        Some(regs),
        Some(left),
        Some(budget),
        Some(seed),
        Some(scratch),
    ) = (
        given.get_str("listing"),
        given.get_str("out"),
        number_from(given.get_str("regs"), Within::<1, 5>::of(3)),
        number_from(given.get_str("left"), Within::<1, 6>::of(3)),
        number_from(given.get_str("budget"), Within::<1, 1_000_001>::of(20_000)),
        seed(given.get_str("seed")),
        number_from(given.get_str("scratch"), Within::<0, 2>::of(0)),
    ) else {
        return Ok(None);
    };
    let Some(pool) = pool(alloc, given.get_str("pool"))? else {
        return Ok(None);
    };
    Ok(Some(Command::Learn {
        listing: String::from_str(alloc, listing)?,
        out: String::from_str(alloc, out)?,
        cost_text: name(alloc, given.get_str("costs"))?,
        options: LearnOptions {
            regs,
            left,
            budget,
            seed,
            scratch,
            pool,
        },
    }))
}

/// The values of `export`.
fn export(alloc: Global, given: &ArgMatches<'_>) -> Result<Option<Command>, AllocError>
    ensures { IfOk result (λ o. option_map request_of o ≡ asked_by exports (first_value (found_of given.now))) }
{
    let (Some(table), Some(word), Some(cnf), Some(lrat)) = (
        given.get_str("table"),
        given.get_str("entry"),
        given.get_str("cnf"),
        given.get_str("lrat"),
    ) else {
        return Ok(None);
    };
    let Some(entry) = number(word.as_bytes()) else {
        return Ok(None);
    };
    Ok(Some(Command::Export {
        table: String::from_str(alloc, table)?,
        entry,
        cnf: String::from_str(alloc, cnf)?,
        lrat: String::from_str(alloc, lrat)?,
    }))
}

/// The values of `trace`.
fn trace(alloc: Global, given: &ArgMatches<'_>) -> Result<Option<Command>, AllocError>
    ensures { IfOk result (λ o. option_map request_of o ≡ asked_by traces (first_value (found_of given.now))) }
{
    let (Some(listing), Some(label), Some(word)) = (
        given.get_str("listing"),
        given.get_str("label"),
        given.get_str("steps"),
    ) else {
        return Ok(None);
    };
    let Some(steps) = steps(word) else {
        return Ok(None);
    };
    Ok(Some(Command::Trace {
        listing: String::from_str(alloc, listing)?,
        label: String::from_str(alloc, label)?,
        steps,
    }))
}

/// The values of `demo`.
fn demo(given: &ArgMatches<'_>) -> Option<Command>
    ensures { option_map request_of result ≡ asked_by demos (first_value (found_of given.now)) }
{
    let Some(word) = given.get_str("windows") else {
        return None;
    };
    let Some(windows) = windows(word) else {
        return None;
    };
    Some(Command::Demo { windows })
}

/// The values of `upgrade`.
fn upgrade(alloc: Global, given: &ArgMatches<'_>) -> Result<Option<Command>, AllocError>
    ensures { IfOk result (λ o. option_map request_of o ≡ asked_by upgrades (first_value (found_of given.now))) }
{
    let (Some(table), Some(out)) = (given.get_str("table"), given.get_str("out")) else {
        return Ok(None);
    };
    Ok(Some(Command::Upgrade {
        table: String::from_str(alloc, table)?,
        out: String::from_str(alloc, out)?,
    }))
}

/// The values of `trim`.
fn trim(alloc: Global, given: &ArgMatches<'_>) -> Result<Option<Command>, AllocError>
    ensures { IfOk result (λ o. option_map request_of o ≡ asked_by trims (first_value (found_of given.now))) }
{
    let (Some(table), Some(out)) = (given.get_str("table"), given.get_str("out")) else {
        return Ok(None);
    };
    Ok(Some(Command::Trim {
        table: String::from_str(alloc, table)?,
        out: String::from_str(alloc, out)?,
    }))
}

/// The values of `tidy`.
fn tidy(alloc: Global, given: &ArgMatches<'_>) -> Result<Option<Command>, AllocError>
    ensures { IfOk result (λ o. option_map request_of o ≡ asked_by tidies (first_value (found_of given.now))) }
{
    let (Some(listing), Some(out), Some(base)) = (
        given.get_str("listing"),
        given.get_str("out"),
        base(given.get_str("base")),
    ) else {
        return Ok(None);
    };
    Ok(Some(Command::Tidy {
        listing: String::from_str(alloc, listing)?,
        out: String::from_str(alloc, out)?,
        base,
    }))
}

/// The values of `generalise`.
fn generalise(alloc: Global, given: &ArgMatches<'_>) -> Result<Option<Command>, AllocError>
    ensures { IfOk result (λ o. option_map request_of o ≡ asked_by generalises (first_value (found_of given.now))) }
{
    let (Some(table), Some(entry), Some(byte), Some(low), Some(high), Some(out)) = (
        given.get_str("table"),
        given.get_str("entry"),
        given.get_str("number"),
        given.get_str("low"),
        given.get_str("high"),
        given.get_str("out"),
    ) else {
        return Ok(None);
    };
    let (Some(entry), Some(number), Some(low), Some(high)) = (
        number(entry.as_bytes()),
        byte_in(byte),
        byte_in(low),
        byte_in(high),
    ) else {
        return Ok(None);
    };
    Ok(Some(Command::Generalise {
        table: String::from_str(alloc, table)?,
        entry,
        number,
        low,
        high,
        out: String::from_str(alloc, out)?,
    }))
}

/// The command that clap found, with its values.
pub fn command_of(alloc: Global, matches: &ArgMatches<'_>) -> Result<Option<Command>, AllocError>
    ensures { IfOk result (λ o. option_map request_of o ≡ option_and_then asked (subcommand_rows_of matches.now)) }
{
    match matches.subcommand() {
        Some(("rewrite", given)) => rewrite(alloc, given),
        Some(("audit", given)) => audit(alloc, given),
        Some(("learn", given)) => learn(alloc, given),
        Some(("export", given)) => export(alloc, given),
        Some(("trace", given)) => trace(alloc, given),
        Some(("demo", given)) => Ok(demo(given)),
        Some(("upgrade", given)) => upgrade(alloc, given),
        Some(("trim", given)) => trim(alloc, given),
        Some(("tidy", given)) => tidy(alloc, given),
        Some(("generalise", given)) => generalise(alloc, given),
        _ => Ok(None),
    }
}
