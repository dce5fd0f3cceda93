//! The settings of the learner are the header that a learnt table gets, so that the audit works with the same ones.
ghost use Rattle.std.specs.Prelude.{IfSome};
ghost use Rattle.seq_enum.specs.Costs.{AreCosts};

pub use rule_table::Header as Settings;

/// Does nothing; its contract states the invariant of the type of costs.
pub(crate) fn hold(settings: &Settings)
    ensures { IfSome settings.now.costs AreCosts }
{
    // For the prover alone: the contract of `numbers` says it.
    if let Some(costs) = &settings.costs {
        let _costs = costs.numbers();
    }
}
