//! The laws of rewriting. Each is the contract of a function that does nothing.

ghost use Rattle.rule_model.specs.Laws.{ReplacingKeepsRuns, RewritingKeepsRuns, RewritingIsComplete, RewritingStaysLayable, RewritingLowers, RewritingShortens, LabelsStayCode, LinesAreReplacedAsPlaces, IsDetermined, LeftNamingsFitGiven};

/// One replacement by a table of rules with equal sides keeps the runs of lines whose literals stand behind their labels.
pub fn replacing_keeps_runs()
    ensures { ReplacingKeepsRuns }
{}

/// Rewriting by a table of rules with equal sides keeps the runs.
pub fn rewriting_keeps_runs()
    ensures { RewritingKeepsRuns }
{}

/// Each replacement applied in the lines as they then were, and none applies in those that are left.
pub fn rewriting_is_complete()
    ensures { RewritingIsComplete }
{}

/// The replacements and the lines that are left are determined.
pub fn rewriting_is_determined()
    ensures { IsDetermined }
{}

/// Lines that can be laid out stay so.
pub fn rewriting_stays_layable()
    ensures { RewritingStaysLayable }
{}

/// Each replacement lowers the cost, no place is added, and the lines stay within their limit.
pub fn rewriting_lowers()
    ensures { RewritingLowers }
{}

/// Where each instruction costs 1, each replacement takes a place away, and no line is added.
pub fn rewriting_shortens()
    ensures { RewritingShortens }
{}

/// Replacing lines replaces their places and labels.
pub fn lines_are_replaced_as_places()
    ensures { LinesAreReplacedAsPlaces }
{}

/// Each code label is still a code label after a replacement.
pub fn labels_stay_code()
    ensures { LabelsStayCode }
{}

/// A naming that fits the lines that are left fits the given lines too, where it gives code points at different places different words.
pub fn left_namings_fit_given()
    ensures { LeftNamingsFitGiven }
{}
