//! What follows from the definitions: each law is the contract of a function that does nothing.
ghost use Rattle.rule_table.specs.Reading.{OneTable, NotBoth, RefusedOnce, WrittenReadsBack, ReadWritesBack};
ghost use Rattle.rule_table.specs.Matching.{OneMap};

/// A text is the text of one table at most.
pub fn texts_have_one_table()
    ensures { OneTable }
{}

/// No text is both a table and refused, and a text is refused at no more than one line.
pub fn refusals_are_one()
    ensures not_both { NotBoth }
    ensures once { RefusedOnce }
{}

/// What is written of a table reads back as the same table, unless memory runs out.
pub fn written_tables_read_back()
    ensures { WrittenReadsBack }
{}

/// What is read of a text is written as that text, byte for byte.
pub fn read_tables_write_back()
    ensures { ReadWritesBack }
{}

/// A left side matches a window under one map at most.
pub fn maps_are_one()
    ensures { OneMap }
{}
