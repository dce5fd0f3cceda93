//! How the items that are read from places change when a window gives way, for one item at a time, by marks of the places: marks that go forward alone, marks
//! that are cleared backwards from the window, and marks that grow back. Definitions, and the laws that hold of them.
#![tactic(auto)]

pub mod laws;
