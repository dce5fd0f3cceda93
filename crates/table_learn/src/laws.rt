//! What follows from the definitions, as the contract of a function that does nothing.
ghost use Rattle.table_learn.specs.Passing.{LearntPass};

/// If a learnt table is written and read back, its audit returns Ok, unless memory runs out.
pub fn learnt_tables_pass_the_audit()
    ensures { LearntPass }
{}
