//! Laws of every listing that is read, each as the contract of a function that does nothing.
ghost use Rattle.listing_parser.specs.Namings.{CodeLabelsAreLabels, LiteralsStand, SomeNamingFits};
ghost use Rattle.listing_parser.specs.Verdicts.{OneListing, OneVerdict, PrintsBack};
ghost use Rattle.listing_parser.specs.ReadAgain.{ReplacedReadsAgain};

/// A listing's lines, joined, are the text that was read, byte for byte.
pub fn listings_print_back()
    ensures { PrintsBack }
{}

/// A text is the listing of no other lines: its instructions, names and numbers are determined.
pub fn a_text_has_one_listing()
    ensures { OneListing }
{}

/// No text is both a listing and refused, and the line and the kind by which a text is refused are determined.
pub fn a_text_has_one_verdict()
    ensures { OneVerdict }
{}

/// The text of a listing after a replacement (`Listing::replaced`) is read as exactly the lines that the replacement left. The replacement must keep
/// every code label, also one that stood before an instruction that is gone, and leave at most 262,144 lines.
pub fn replaced_listings_read_again()
    ensures { ReplacedReadsAgain }
{}

/// From the label that a literal load mentions up to the word that it loads there are data words alone: so rewriting moves no literal away from its label.
pub fn literals_stand_behind_their_labels()
    ensures { LiteralsStand }
{}

/// Some naming fits each listing: so what is claimed for every naming that fits isn't vacuous.
pub fn some_naming_fits()
    ensures { SomeNamingFits }
{}

/// The code label of a name is its only label, where an instruction stands at that label.
pub fn code_labels_are_labels()
    ensures { CodeLabelsAreLabels }
{}
