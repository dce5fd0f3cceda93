//! The laws of padded codes. Each is the contract of a function that does nothing.

ghost use Rattle.padded_code.specs.Exchange.{ExchangeStaysPadded, PutStaysPadded, WholeIsPadded};
ghost use Rattle.padded_code.specs.Fitting.{AppliesByPlaces, LeastByPlaces};
ghost use Rattle.padded_code.specs.Lines.{LinesStayPadded};
ghost use Rattle.padded_code.specs.Padding.{PaddingKeepsLive, PaddingKeepsNames, PaddingKeepsPoints, PaddingKeepsReads};
ghost use Rattle.padded_code.specs.Spread.{ExchangeIsStraight, SpreadsEnd, SpreadsReadAlike};
ghost use Rattle.padded_code.specs.Windows.{LiveIsReadBehind, NodesReadAlike, NopsReadOn, RanksAreTaken, WindowsAreKept, WindowsStandAlike};

/// What is read from a place of a padded code is what is read from its rank in the code that is left.
pub fn padding_keeps_reads()
    ensures { PaddingKeepsReads }
{}

/// What is live after a kept place of a padded code is what is live after its rank in the code that is left.
pub fn padding_keeps_live()
    ensures { PaddingKeepsLive }
{}

/// A name leads to the rank of the place that it leads to in the padded code.
pub fn padding_keeps_names()
    ensures { PaddingKeepsNames }
{}

/// The code points of the code that is left are the ranks of those of the padded one.
pub fn padding_keeps_points()
    ensures { PaddingKeepsPoints }
{}

/// A code of which nothing is gone is its own padded code.
pub fn whole_is_padded()
    ensures { WholeIsPadded }
{}

/// Where instructions give way in the code, they do so in the padded one: the new ones take the first places, and the others are gone.
pub fn exchange_stays_padded()
    ensures { ExchangeStaysPadded }
{}

/// Another instruction that is put at a kept place stands at that place's rank in the code that is left.
pub fn put_stays_padded()
    ensures { PutStaysPadded }
{}

/// Each place of the code is the rank of a kept one.
pub fn ranks_are_taken()
    ensures { RanksAreTaken }
{}

/// Places of the code that follow one another are the ranks of kept ones.
pub fn windows_are_kept()
    ensures { WindowsAreKept }
{}

/// What stands at places of the code stands at the kept places of these ranks in the padded code.
pub fn windows_stand_alike()
    ensures { WindowsStandAlike }
{}

/// What is read from a place where a nop stands is what is read from the place behind it.
pub fn nops_read_on()
    ensures { NopsReadOn }
{}

/// What is read from the first of some nops is what is read from the place behind the last.
pub fn nodes_read_alike()
    ensures { NodesReadAlike }
{}

/// What is live after a window instruction is what is read from the place behind it in the padded code.
pub fn live_is_read_behind()
    ensures { LiveIsReadBehind }
{}

/// A rule applies in the code exactly where it fits in the padded one.
pub fn applies_by_places()
    ensures { AppliesByPlaces }
{}

/// A scratch register is the least that is free in the code exactly where it is in the padded one.
pub fn least_by_places()
    ensures { LeastByPlaces }
{}

/// Where a rule's window gives way in lines, the padded code in which its kept places give way pads the code of the lines that are left.
pub fn lines_stay_padded()
    ensures { LinesStayPadded }
{}

/// A window of kept places that gives way is an exchange of straight code, with the nops between them.
pub fn exchange_is_straight()
    ensures { ExchangeIsStraight }
{}

/// A window of kept places, as straight code, ends behind its last place.
pub fn spreads_end()
    ensures { SpreadsEnd }
{}

/// A window of kept places, as straight code, reads and writes what its instructions do.
pub fn spreads_read_alike()
    ensures { SpreadsReadAlike }
{}
