//! Cases of costs: reading the kept text as costs, and listing the sequences that cost less than a limit.
use crate::case::Case;
use crate::rule_part::Given;
use seq_enum::{Pool, cheaper, read_costs};
use std::alloc::Global;
use std::fmt::Display;

/// Adds numbers on a line.
fn list<T: Copy + Display + Drop>(case: &mut Case<'_>, numbers: &[T]) {
    for number in numbers {
        case.add(*number);
    }
    case.end_line();
}

/// Adds the costs that the kept text gives, or the line at which it is refused.
pub(crate) fn read(given: &Given, case: &mut Case<'_>) -> Option<()> {
    match read_costs(&given.text) {
        Ok(costs) => list(case, costs.numbers()),
        Err(error) => case.tell::<(), _>(Err(error)),
    }
    Some(())
}

/// The pool of these numbers, which commas separate.
fn pool(alloc: Global, word: &str) -> Option<Pool> {
    let mut numbers = Vec::new(alloc);
    for number in word.split(',') {
        numbers.push(number.parse::<u8>().ok()?).ok()?;
    }
    Pool::new(&numbers)
}

/// `cheaper REGISTERS POOL LONGEST LIMIT`: adds the numbers of the sequences of at most LONGEST instructions that cost less than LIMIT by the kept text.
pub(crate) fn lighter(given: &Given, case: &mut Case<'_>) -> Option<()> {
    let k = u8::try_from(case.number()).ok()?;
    let word = case.word();
    let longest = u8::try_from(case.number()).ok()?;
    if k == 0 || k > 4 || longest > 5 {
        return None;
    }
    let costs = read_costs(&given.text).ok()?;
    let pool = pool(given.alloc, word)?;
    let numbers = cheaper(given.alloc, k, &pool, &costs, longest, case.number()).ok()?;
    list(case, &numbers);
    Some(())
}
