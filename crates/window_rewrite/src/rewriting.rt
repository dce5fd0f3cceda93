//! The crate's one call: replacing until no rule applies, with the headline's clauses on the listing that is left.
ghost use Rattle.std.specs.Prelude.{◌+◌, ◌≤◌, All, length, map, IfOk, MatchResult};
ghost use Rattle.step_ledger.specs.Counts.{RisesByAtLeast};
ghost use Rattle.rule_table.specs.Views.{table_of};
ghost use Rattle.table_audit.specs.Soundness.{numbers_of};
ghost use Rattle.thumb_model.specs.Layout.{Layable};
ghost use Rattle.thumb_model.specs.Listing.{code_of, places_of};
ghost use Rattle.thumb_model.specs.Literals.{HasLiterals};
ghost use Rattle.thumb_model.specs.Same.{Same};
ghost use Rattle.rule_model.specs.Rewriting.{AreRewritten};
ghost use Rattle.window_rewrite.specs.TableRewriting.{setting, replacement_of, rewriting_cost, IsRefusal, IsWhole};
ghost use Rattle.window_rewrite.specs.Choices.{setting_of, sides_of, AreReady};
ghost use Rattle.window_rewrite.specs.Layouts.{IsSteadyIf};

use crate::choice::Rewritten;
use crate::errors::RewriteError;
use crate::finding::Rules;
use crate::index::RuleIndex;
use crate::scene::Scene;
use crate::work_list::go_through;
use label_layout::layout;
use listing_parser::{Listing, Memory};
use std::alloc::Global;
use steady_layout::is_steady;
use step_ledger::{Ledger, Steps};
use table_audit::Audited;

/// Whether each listing that comes of this one by replacements can surely be laid out from the base.
fn is_steady_from(alloc: Global, listing: &Listing, base: u32) -> Result<bool, Memory>
    ensures { IfOk result (IsSteadyIf base listing.now) }
{
    if base % 4 != 0 {
        return Ok(false);
    }
    is_steady(alloc, listing, base)
}

/// Whether each listing that comes of this one by replacements can surely be laid out. A listing that cannot be laid out itself is refused.
fn judge(alloc: Global, listing: &Listing, base: u32) -> Result<bool, RewriteError>
    ensures steady { IfOk result (IsSteadyIf base listing.now) }
    ensures verdict { MatchResult result (λ _. Layable base listing.now) (IsRefusal base listing.now) }
{
    if is_steady_from(alloc, listing, base)? {
        return Ok(true);
    }
    let _laid = layout(alloc, listing, base)?;
    Ok(false)
}

/// Rewrites a listing by an accepted table, for an image that begins at the base: at the least place where some entry or family applies, the one with the
/// longest left side, then an entry before a family, then the lowest, until none applies. What is left runs as the given listing does. A listing that cannot be
/// laid out from the base is refused at its first such line.
///
/// A step is a match tried, or a visit of a place for its live items: at least one for each replacement, and one for each place.
pub fn rewrite<L: Ledger>(
    alloc: Global,
    table: &Audited,
    listing: Listing,
    base: u32,
    steps: &mut Steps<L>,
) -> Result<Rewritten, RewriteError>
    ensures rewritten { IfOk result (λ new. AreRewritten (setting base (table_of table.now)) listing (map replacement_of new.replacements.items) new.listing) }
    ensures same { IfOk result (λ new. HasLiterals (code_of listing) → Same (code_of listing) (code_of new.listing)) }
    ensures whole { IfOk result (λ new. All IsWhole new.replacements.items) }
    ensures verdict { MatchResult result (λ _. Layable base listing) (IsRefusal base listing) }
    ensures cost { IfOk result (λ new. steps.new ≤ steps.old + rewriting_cost listing (length (numbers_of (table_of table.now))) (length new.replacements.items)) }
    ensures rises { IfOk result (λ new. RisesByAtLeast steps.old steps.new (length (places_of listing) + length new.replacements.items)) }
{
    let steady = judge(alloc, &listing, base)?;
    let accepted = table.table();
    let entries = accepted.entries.as_slice();
    let families = accepted.families.as_slice();
    let index = RuleIndex::of(alloc, &accepted.costs, entries, families)?;
    let rules = Rules {
        entries,
        families,
        index: &index,
        costs: &accepted.costs,
        longest: accepted.left,
        base,
    };
    let new = rewritten(alloc, &rules, listing, steady, steps)?;
    Ok(new)
}

/// What is left of a listing once no rule applies any more. `steady` is whether each listing that comes of it by replacements can surely be laid out.
fn rewritten<L: Ledger>(
    alloc: Global,
    rules: &Rules<'_>,
    listing: Listing,
    steady: bool,
    steps: &mut Steps<L>,
) -> Result<Rewritten, Memory>
    requires ready { AreReady rules.now }
    requires layable { Layable rules.now.base listing }
    requires steady { IsSteadyIf rules.now.base listing steady }
    ensures rewritten { IfOk result (λ new. AreRewritten (setting_of rules.now) listing (map replacement_of new.replacements.items) new.listing) }
    ensures whole { IfOk result (λ new. All IsWhole new.replacements.items) }
    ensures cost { IfOk result (λ new. steps.new ≤ steps.old + rewriting_cost listing (length (sides_of rules.now)) (length new.replacements.items)) }
    ensures rises { IfOk result (λ new. RisesByAtLeast steps.old steps.new (length (places_of listing) + length new.replacements.items)) }
{
    let mut scene = Scene::of(alloc, rules, listing, steady, steps)?;
    let replacements = go_through(alloc, rules, &mut scene, steps)?;
    let listing = scene.into_listing(alloc)?;
    Ok(Rewritten {
        listing,
        replacements,
    })
}
