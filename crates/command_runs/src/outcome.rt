//! The outcome that a command computes from its texts: a refusal line, or what is to be kept and printed. `stages` does the reading and keeping, for all
//! commands alike.
ghost use Rattle.std.specs.Prelude.{◌≡◌, IfOk};

use std::alloc::{AllocError, Global};

/// Bytes to be kept under a name.
#[derive(Drop)]
pub struct KeptText {
    /// The name.
    pub name: String,
    /// The bytes.
    pub text: Vec<u8>,
}

impl KeptText {
    ghost use Rattle.command_runs.specs.Outcomes.{keep_view};

    /// The text, to be kept under the name.
    ///
    /// # Errors
    ///
    /// Only where memory runs out.
    pub fn new(alloc: Global, name: &str, text: Vec<u8>) -> Result<KeptText, AllocError>
        ensures { IfOk result (λ d. keep_view d ≡ (name.now, text.items)) }
    {
        let name = String::from_str(alloc, name)?;
        Ok(KeptText { name, text })
    }
}

/// The outcome that a command computes from its texts.
#[derive(Drop)]
pub enum Outcome {
    /// The command is refused: the line to be printed, with its newline.
    Refuses(Vec<u8>),
    /// The command is carried out: what is to be kept, in order, and the lines to be printed then, each with its newline.
    Does {
        keeps: Vec<KeptText>,
        lines: Vec<u8>,
    },
}
