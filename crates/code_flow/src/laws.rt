//! The laws of ways. Each is the contract of a function that does nothing.

ghost use Rattle.code_flow.specs.Shapes.{FirstWayIsShape};

/// By its first way an instruction reads and writes what its shape says; a direct branch or call does where its target is in the listing.
pub fn first_way_is_shape()
    ensures { FirstWayIsShape }
{}
