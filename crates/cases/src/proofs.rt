//! Cases of proofs: lines that the checker accepts or refuses, and formulas that the solver is given.
use crate::case::Case;
use crate::rule_part::Given;
use cdcl_core::Verdict;
use lrat_check::{Checker, check_proof, read_line};
use step_ledger::{Counted, Steps};

/// Adds what the checker answers to a line, and whether its formula is refuted by then.
fn step(checker: &mut Checker, text: &str, case: &mut Case<'_>) {
    match read_line(case.alloc, text.as_bytes()) {
        Err(_) => case.end(None),
        Ok(None) => case.add_line("none"),
        Ok(Some(line)) => case.tell(checker.add(&line, &mut Steps::new(Counted::new()))),
    }
    if checker.refuted() {
        case.add_line("refuted");
    }
}

pub(crate) fn proof(given: &Given, case: &mut Case<'_>) -> Option<()> {
    let mut checker = Checker::new(given.alloc, &given.formula).ok()?;
    for text in case.rest().split(" / ") {
        step(&mut checker, text, case);
    }
    Some(())
}

pub(crate) fn solve(given: &Given, case: &mut Case<'_>) -> Option<()> {
    let budget = case.number();
    if budget > 1_000_000 || given.formula.clauses() > 1_000_000 {
        return None;
    }
    let mut steps = Steps::new(Counted::new());
    let log = match cdcl_core::solve(given.alloc, &given.formula, budget, &mut steps).ok()? {
        Verdict::Sat(_) => {
            case.add_line("a model");
            return Some(());
        }
        Verdict::Unsat(log) | Verdict::Spent(log) => log,
    };
    case.tell(check_proof(given.alloc, &given.formula, &log, &mut steps));
    Some(())
}
