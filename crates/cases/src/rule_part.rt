//! The cases about what makes and checks rules: each line is a case, about the formula and the text that earlier cases kept.
use crate::case::Case;
use crate::{costs, formulas, learning, proofs, tables, texts};
use cnf_gates::Formula;
use std::alloc::Global;

/// What a case is about: the formula and the text that earlier cases kept.
#[derive(Drop)]
pub(crate) struct Given {
    pub(crate) alloc: Global,
    pub(crate) formula: Formula,
    pub(crate) text: Vec<u8>,
}

impl Given {
    /// A formula without variables, and no text.
    pub(crate) fn new(alloc: Global) -> Given {
        Given {
            alloc,
            formula: Formula::new(alloc, 0),
            text: Vec::new(alloc),
        }
    }
}

/// Answers a case; None if it can't be read, or memory runs out.
fn answer_case(given: &mut Given, case: &mut Case<'_>) -> Option<()> {
    match case.word() {
        "new" => texts::begin(given),
        "text" => texts::add(given, case),
        "show" => texts::show(given, case),
        "read" => tables::judge(given, case),
        "change" => tables::change(given, case),
        "costs" => costs::read(given, case),
        "cheaper" => costs::lighter(given, case),
        "audit" => tables::audited(given, case),
        "learn" => learning::learnt(given, case),
        "entry" => formulas::entry(given, case),
        "clauses" => formulas::clauses(given, case),
        "empty" => formulas::push_empty(given),
        "proof" => proofs::proof(given, case),
        "solve" => proofs::solve(given, case),
        _ => None,
    }
}

/// Answers a case.
pub(crate) fn answer(given: &mut Given, case: &mut Case<'_>) {
    let answered = answer_case(given, case);
    case.end(answered);
}
