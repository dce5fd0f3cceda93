//! What is proved of images. Each law is the contract of a function that does nothing.

ghost use Rattle.thumb_assembler.specs.Promises.{ImagesFollow, ImagesFollowGiven, RunsAreDetermined};
ghost use Rattle.thumb_assembler.specs.Sizes.{SizesAreWidths};

/// From a code label's address, an image's run reaches the events, memory and unread answers of its listing's run, as long as that isn't lost (`IsLost`).
pub fn images_follow_listings()
    ensures { ImagesFollow }
{}

/// The same for the listing that the image's listing was rewritten from.
pub fn images_follow_given_listings()
    ensures { ImagesFollowGiven }
{}

/// After a given number of steps from a state, an image's run is in exactly one state.
pub fn image_runs_are_determined()
    ensures { RunsAreDetermined }
{}

/// The layout gives an instruction as many bytes as its encoding has.
pub fn sizes_are_widths()
    ensures { SizesAreWidths }
{}
