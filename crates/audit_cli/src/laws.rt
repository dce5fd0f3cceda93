//! What follows from the contract of the top call, as the contracts of functions that do nothing.
ghost use Rattle.audit_cli.specs.Complete.{IsComplete, IsCompleteButForFull};
ghost use Rattle.audit_cli.specs.Headline.{RewritesAsPromised};

/// If the words ask for a command, neither the store nor the sink fails, each name to be fetched holds a text within the limit, and the texts can't be
/// refused, then the status is Done or Memory. If `refused full` is the only possible refusal, it is the only other outcome.
pub fn peep_is_complete()
    ensures complete { IsComplete }
    ensures full { IsCompleteButForFull }
{}

/// What a call of `rewrite` has done when its status is Done, as one record, in the order in which a user would say it.
pub fn rewriting_is_as_promised()
    ensures { RewritesAsPromised }
{}
