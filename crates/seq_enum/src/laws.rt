//! What follows from the definitions, each as the contract of a function that does nothing.
ghost use Rattle.seq_enum.specs.ReadingCosts.{OneMeaning, NotBoth, RefusedOnce};

/// A text of costs has one meaning.
pub fn cost_texts_have_one_meaning()
    ensures { OneMeaning }
{}

/// No text is both accepted and refused, and a text is refused at just one line.
pub fn cost_refusals_are_one()
    ensures not_both { NotBoth }
    ensures once { RefusedOnce }
{}
