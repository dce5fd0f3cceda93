//! The theorems. Each is the contract of a function that does nothing.

ghost use Rattle.listing_laws.specs.Assembled.{AssembledListingsFit, AssembledImagesFollow};
ghost use Rattle.listing_laws.specs.Fitting.{LaidNamingsFit};
ghost use Rattle.listing_laws.specs.Limits.{TextsEndInCode};

/// Laid out from a base in the lower half of the Code region, every listing ends within that region: so none is refused there for reaching beyond it.
pub fn texts_end_in_the_code_region()
    ensures { TextsEndInCode }
{}

/// Where lines begin at even addresses, each name has one label and external names lie outside the lines, the naming that the layout gives fits the lines.
pub fn laid_namings_fit()
    ensures { LaidNamingsFit }
{}

/// The naming that the layout gives fits an assembled listing, unless the listing ends in a call and a name that it mentions is set to an address just after.
pub fn assembled_listings_fit()
    ensures { AssembledListingsFit }
{}

/// So the run of an assembled image follows that of its listing, without a condition on the naming.
pub fn assembled_images_follow()
    ensures { AssembledImagesFollow }
{}
