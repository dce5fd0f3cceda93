//! What is proved of the forms, and of reading and writing together. Each law is the contract of a function that does nothing.
ghost use Rattle.thumb_syntax.specs.RowLaws.{ReadsBySomeRow, RowsAgree};
ghost use Rattle.thumb_syntax.specs.Whole.{ReadingIsWhole, WritingReadsBack};

/// A text is read as an instruction exactly where some form reads it as that instruction: the order of the forms doesn't matter.
pub fn some_form_reads()
    ensures { ReadsBySomeRow }
{}

/// No two forms read one text as different instructions.
pub fn forms_agree()
    ensures { RowsAgree }
{}

/// The text of an instruction with its label is read as that instruction and label.
pub fn writing_reads_back()
    ensures { WritingReadsBack }
{}

/// What is read is an instruction with the label that its text names; its canonical text is read as the same instruction and label.
pub fn reading_is_whole()
    ensures { ReadingIsWhole }
{}
