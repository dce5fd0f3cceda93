//! How a run of the program ended, and the exit code of the process for it.
ghost use Rattle.std.specs.Prelude.{◌≡◌};
ghost use Rattle.command_runs.specs.Outcomes.{code_of};

/// How a run ended.
#[derive(Clone, Copy, Debug, PartialEq, Eq)]
pub enum Status {
    /// The command was carried out.
    Done,
    /// The command was refused, and its one refusal line was printed.
    Refused,
    /// The words are no command line.
    Usage,
    /// The store failed, at a fetch or at a keep.
    StoreFault,
    /// The sink failed when the lines were put.
    SinkFault,
    /// Memory ran out.
    Memory,
    /// A text to be fetched is over the limit.
    TooBig,
    /// The store has no text under a name to be fetched.
    Missing,
}

impl Status {
    /// The number that the process ends with, 0 to 7.
    pub fn code(self) -> u8
        ensures { result ≡ code_of self }
    {
        self as u8
    }
}
