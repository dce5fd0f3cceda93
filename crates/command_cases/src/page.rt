//! What a line of the script shows.
use outer_store::{Sink, SinkError};
use std::alloc::Global;

/// What is to be shown so far. A page is void if its line can't be carried out, or memory runs out.
#[derive(Drop)]
pub(crate) struct Page {
    bytes: Vec<u8>,
    is_void: bool,
}

impl Page {
    pub(crate) fn new(alloc: Global) -> Page {
        Page {
            bytes: Vec::new(alloc),
            is_void: false,
        }
    }

    /// Adds bytes.
    pub(crate) fn add_bytes(&mut self, bytes: &[u8]) {
        self.is_void |= self.bytes.extend_from_slice(bytes).is_err();
    }

    /// Adds a text.
    pub(crate) fn add(&mut self, text: &str) {
        self.add_bytes(text.as_bytes());
    }

    /// Makes the page void unless something was done.
    pub(crate) fn note(&mut self, is_done: bool) {
        self.is_void |= !is_done;
    }

    /// Writes the page; `?` if it is void.
    pub(crate) fn put<O: Sink>(&self, output: &mut O) -> Result<(), SinkError> {
        if self.is_void {
            output.put(b"?\n")
        } else {
            output.put(&self.bytes)
        }
    }
}
