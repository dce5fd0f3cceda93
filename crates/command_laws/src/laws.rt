//! The laws of the commands. Each is the contract of a function that does nothing.

ghost use Rattle.command_laws.specs.Fit.{FitTextsAreCarriedOut, FitTextsAreLearntFrom};
ghost use Rattle.command_laws.specs.Images.{KeptImagesFollow};
ghost use Rattle.command_laws.specs.Once.{DemosOfOneTableAreOne, GeneralisingIsOneButForSearches, LearningByCostsIsOneButForTables, LearningIsOneButForTables, TextsComeToOne};
ghost use Rattle.command_laws.specs.Tidying.{TidiesAsPromised};
ghost use Rattle.command_laws.specs.Trimming.{TrimmedTablesAreAccepted, TrimmedTablesRewriteAlike, TrimmedTablesStay, TrimmedTextsAreNoLonger, TrimmingIsOne};
ghost use Rattle.command_laws.specs.Upgrading.{LaterTablesAreKept, UpgradesAreAuditedAlike, UpgradesAreTables, UpgradesRewriteAlike};

/// The texts that `rewrite`, `audit`, `export`, `trace`, `upgrade`, `trim` or `tidy` reads determine the outcome: whether they are refused, with which line,
/// and what is kept and printed. The same holds of `learn`, with or without costs, except that the definition doesn't fix which table is learnt from a
/// listing, nor whether its text is too long. What `demo` prints is determined by the table that it learns. The same holds of `generalise`, except that what
/// the solver finds isn't fixed where the table is accepted and the entry's number can be raised.
pub fn texts_come_to_one_outcome()
    ensures one { TextsComeToOne }
    ensures learning { LearningIsOneButForTables }
    ensures by_costs { LearningByCostsIsOneButForTables }
    ensures demo { DemosOfOneTableAreOne }
    ensures generalising { GeneralisingIsOneButForSearches }
{}

/// If the words ask for a command and nothing fails, texts that are fit for it give Done or Memory. Fit are for `rewrite` an accepted table and a well-formed
/// listing that can be laid out and, if an image is asked for, has an address for each external name and sets none inside the image; for `tidy` a
/// well-formed listing that can be laid out; for `generalise` an accepted table with an entry whose number can be raised and whose sides with each value are
/// equal, if no log spends the budget. `specs/Fit.antt` has the other commands. Where the solver is asked, `refused full` is possible too.
pub fn fit_texts_are_carried_out()
    ensures carried_out { FitTextsAreCarriedOut }
    ensures learnt { FitTextsAreLearntFrom }
{}

/// The image that `rewrite` keeps runs as the rewritten listing does, and as the given listing does if no two of its code points at different places got the
/// same address. Of a naming nothing else is required than that no name is set within two bytes after a call at the end.
pub fn kept_images_follow()
    ensures { KeptImagesFollow }
{}

/// What `upgrade` keeps is a table. The audit accepts it if and only if it accepts the given one, and else refuses both for the same cause. Rewriting by the
/// two is the same. A table of version 2 or later is kept byte for byte.
pub fn upgrades_say_the_same()
    ensures tables { UpgradesAreTables }
    ensures audited { UpgradesAreAuditedAlike }
    ensures rewriting { UpgradesRewriteAlike }
    ensures later { LaterTablesAreKept }
{}

/// What `trim` keeps is determined: a table that the audit accepts, and by which rewriting is the same. Its text is no longer, and trimming is idempotent.
pub fn trimmed_tables_say_the_same()
    ensures accepted { TrimmedTablesAreAccepted }
    ensures rewriting { TrimmedTablesRewriteAlike }
    ensures no_longer { TrimmedTextsAreNoLonger }
    ensures one { TrimmingIsOne }
    ensures stay { TrimmedTablesStay }
{}

/// What a call of `tidy` has done when its status is Done, as one record, in the order in which a user would say it.
pub fn tidying_is_as_promised()
    ensures { TidiesAsPromised }
{}
