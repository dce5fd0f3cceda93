//! A table as the finder looks into it: marks that reject most windows at once, and for the others the rules by their left sides.
ghost use Rattle.std.specs.Prelude.{◌≡◌, IfOk, length, map, replicate, true};
ghost use Rattle.rule_table.specs.Views.{family_of, rule_of};
ghost use Rattle.window_rewrite.specs.Rules.{left_forms, raised_forms, rules_in, AreChains, AreLed, IsIndex};

use crate::chains::Chains;
use crate::forms::{left_forms, raised_forms};
use crate::left_side_hashes::LeftSideHashes;
use crate::shadows::kept_entries;
use listing_parser::Memory;
use rule_table::{Entry, Family};
use seq_enum::Costs;
use std::alloc::Global;

/// Marks of the rules whose right sides weigh less, which reject most windows, and for the others chains of rules by their left sides.
#[derive(Drop)]
pub(crate) struct RuleIndex {
    pub(crate) marks: LeftSideHashes,
    /// Marks of the families, by left sides with 0 for 8-bit numbers.
    pub(crate) holes: LeftSideHashes,
    /// The entries that are kept, by the hashes of their left sides.
    pub(crate) entries: Chains,
    /// All families, by the hashes of their left sides with 0 for 8-bit numbers.
    pub(crate) families: Chains,
}

/// The entries that are kept, in chains by the hashes of their left sides.
fn entry_chains(alloc: Global, costs: &Option<Costs>, entries: &[Entry]) -> Result<Chains, Memory>
    ensures chains { IfOk result (AreChains (left_forms (rules_in entries.now)) 0) }
    ensures led { IfOk result (λ chains. AreLed costs.now (rules_in entries.now) chains.kept.items (length (rules_in entries.now))) }
{
    let kept = kept_entries(alloc, costs, entries)?;
    let forms = left_forms(alloc, entries)?;
    Chains::of(alloc, kept, &forms)
}

/// All families, in chains by the hashes of their left sides with 0 for 8-bit numbers.
fn family_chains(alloc: Global, entries: &[Entry], families: &[Family]) -> Result<Chains, Memory>
    ensures chains { IfOk result (AreChains (raised_forms (map rule_of entries.now) (map family_of families.now)) 0) }
    ensures all { IfOk result (λ chains. chains.kept.items ≡ replicate (length families.now) true) }
{
    let kept = vec![in alloc; true; families.len()]?;
    let forms = raised_forms(alloc, entries, families)?;
    Chains::of(alloc, kept, &forms)
}

impl RuleIndex {
    /// The index of these entries and families.
    pub(crate) fn of(
        alloc: Global,
        costs: &Option<Costs>,
        entries: &[Entry],
        families: &[Family],
    ) -> Result<RuleIndex, Memory>
        ensures { IfOk result (IsIndex costs.now (map rule_of entries.now) (map family_of families.now)) }
    {
        Ok(RuleIndex {
            marks: LeftSideHashes::of(alloc, costs, entries)?,
            holes: LeftSideHashes::of_families(alloc, costs, entries, families)?,
            entries: entry_chains(alloc, costs, entries)?,
            families: family_chains(alloc, entries, families)?,
        })
    }
}
