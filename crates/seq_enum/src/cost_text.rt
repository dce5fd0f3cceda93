//! Reads a text of costs: a heading, then lines of a mnemonic and its cost. Lines have just one form, and no mnemonic may have two.
ghost use Rattle.std.specs.Prelude.{◌≡◌, ◌<◌, ◌≤◌, ℕ, ◌==◌, [], map, length, get_or, decimal, MatchOption, IfSome, IsTrue, ◌↔◌, All};
ghost use Rattle.std.specs.List.{position};
ghost use Rattle.std.specs.Option.{unwrap_or};
ghost use Rattle.std.specs.Str.{bytes_eq};
ghost use Rattle.ascii_scan.specs.Source.{line_view};
ghost use Rattle.seq_enum.specs.declared.cost_text.Said.{Said as Saying};
ghost use Rattle.seq_enum.specs.Costs.{mnemonics, line_of, IsSaid};
ghost use Rattle.seq_enum.specs.CostSteps.{IsHeading, Notes};
ghost use Rattle.seq_enum.specs.ReadingCosts.{ReadsCosts};

use crate::costs::Costs;
use ascii_scan::{Lines, SourceLine};
use itoa::Buffer;
use thiserror::Error;

/// Why a text isn't one of costs.
#[derive(Clone, Copy, Debug, PartialEq, Eq, Error)]
#[error("line {number} begins no costs")]
pub struct CostLine {
    /// The first line, from 1, at which the text can't be one of costs any more; the missing or cut line, where the text ends too early or its last
    /// line lacks the newline.
    pub number: u64,
}

/// The content of a line: a mnemonic, by its place among the 28, and its cost, 1 to 64.
#[derive(Clone, Copy)]
struct Said {
    mnemonic: usize,
    cost: u8,
}

/// The mnemonics in order.
static MNEMONICS: [&[u8]; 28] = [
    b"adds", b"subs", b"movs", b"cmp", b"lsls", b"lsrs", b"asrs", b"ands", b"eors", b"adcs",
    b"sbcs", b"rors", b"tst", b"rsbs", b"cmn", b"orrs", b"muls", b"bics", b"mvns", b"mov", b"add",
    b"sxth", b"sxtb", b"uxth", b"uxtb", b"rev", b"rev16", b"revsh",
];

#[tactic(auto, unfolding(crate::specs::Costs::mnemonics))]
fn mnemonics() -> &'static [&'static [u8]]
    ensures value { map (λ name. name.now) result.now ≡ mnemonics }
    ensures len { length result.now ≡ 28 }
{
    &MNEMONICS
}

/// The place of the first name that is the word.
fn place_of(names: &[&[u8]], word: &[u8]) -> Option<usize>
    ensures { result ≡ position (λ name. bytes_eq name.now word.now) names.now }
{
    names.iter().position(|name| *name == word)
}

/// The place of a mnemonic among the 28.
fn mnemonic_of(word: &[u8]) -> Option<usize>
    ensures { MatchOption result ((m : ℕ) → m < 28 → get_or mnemonics m [] ≡ word.now → ⊥) (λ m. (m < 28) × (get_or mnemonics m [] ≡ word.now)) }
{
    place_of(mnemonics(), word)
}

fn is_numeral_of(number: u8, word: &[u8]) -> bool
    ensures { IsTrue result ↔ (decimal number ≡ word.now) }
{
    Buffer::new().format(number).as_bytes() == word
}

/// The number from 1 to 64 whose decimal numeral the word is.
fn cost_of(word: &[u8]) -> Option<u8>
    ensures { MatchOption result ((n : ℕ) → 1 ≤ n → n ≤ 64 → decimal n ≡ word.now → ⊥) (λ n. (1 ≤ n) × (n ≤ 64) × (decimal n ≡ word.now)) }
{
    for cost in 1..65 {
        if is_numeral_of(cost, word) {
            return Some(cost);
        }
    }
    None
}

/// Where the first blank stands.
fn blank_in(line: &[u8]) -> Option<usize>
    ensures { result ≡ position (λ byte. byte == 32) line.now }
{
    line.iter().position(|byte| *byte == b' ')
}

/// The content of a line, which is given without its newline.
fn what_says(line: &[u8]) -> Option<Said>
    ensures { MatchOption result ((s : Saying) → IsSaid s → line_of s ≡ line.now → ⊥) (λ s. IsSaid s × (line_of s ≡ line.now)) }
{
    let Some(blank) = blank_in(line) else {
        return None;
    };
    let Some(mnemonic) = mnemonic_of(&line[..blank]) else {
        return None;
    };
    match cost_of(&line[blank + 1..]) {
        None => None,
        Some(cost) => Some(Said { mnemonic, cost }),
    }
}

/// Notes the cost in a line. False where the line lacks its newline, has no cost, or its mnemonic has a cost already.
fn note(costs: &mut [Option<u8>], line: &SourceLine<'_>) -> bool
    requires { length costs.old ≡ 28 }
    ensures { Notes (line_view line.now) costs.old costs.new result }
{
    if !line.is_ended {
        return false;
    }
    match what_says(line.text) {
        None => false,
        Some(said) => {
            if costs[said.mnemonic].is_some() {
                return false;
            }
            costs[said.mnemonic] = Some(said.cost);
            true
        }
    }
}

/// Whether it is the heading of a text of costs.
fn is_heading(line: &SourceLine<'_>) -> bool
    ensures { IsTrue result ↔ IsHeading (line_view line.now) }
{
    line.is_ended && line.text == b"costs 1".as_slice()
}

/// The costs that are kept, 1 for a mnemonic that has none.
fn costs_of(kept: &[Option<u8>]) -> Costs
    requires some { length kept.now ≡ 28 }
    requires each { All (λ cost. IfSome cost (λ n. (1 ≤ n) × (n ≤ 64))) kept.now }
    ensures { result ≡ map (λ cost. unwrap_or cost 1) kept.now }
{
    let mut numbers = [1; 28];
    for place in 0..28 {
        numbers[place] = kept[place].unwrap_or(1);
    }
    match Costs::new(&numbers) {
        None => unreachable!(),
        Some(costs) => costs,
    }
}

/// The costs whose text the bytes are, or the first line at which the text can't be one of costs any more: where it ends too early or its last line lacks the
/// newline, the number of the line that is missing or cut.
pub fn read_costs(text: &[u8]) -> Result<Costs, CostLine>
    ensures { ReadsCosts text.now result }
{
    let mut lines = Lines::new(text);
    match lines.next() {
        None => return Err(CostLine { number: 1 }),
        Some(line) => {
            if !is_heading(&line) {
                return Err(CostLine { number: 1 });
            }
        }
    }
    let mut kept = [None; 28];
    for line in lines {
        if !note(&mut kept, &line) {
            return Err(CostLine {
                number: line.number as u64,
            });
        }
    }
    Ok(costs_of(&kept))
}
