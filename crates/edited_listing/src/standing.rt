//! What stands at a place of a listing that is being changed.
ghost use Rattle.std.specs.Prelude.{◌≡◌};
ghost use Rattle.edited_listing.specs.Changes.{home_at, is_as_given, new_with_home};

use thumb_instr::Instr;

/// What stands at a place of a listing that is being changed.
#[derive(Clone, Copy)]
pub enum Standing {
    /// What the given listing has there.
    Given,
    /// Nothing: it is gone.
    Gone,
    /// A new instruction, which is emitted on the line of a given place: its home.
    New { instr: Instr, home: u32 },
}

impl Standing {
    /// Whether it is as it was given.
    pub(crate) fn is_given(&self) -> bool
        ensures { result ≡ is_as_given self.now }
    {
        match self {
            Standing::Given => true,
            Standing::Gone => false,
            Standing::New { .. } => false,
        }
    }

    /// The new instruction, where it has that home.
    pub(crate) fn new_at(&self, place: u32) -> Option<Instr>
        ensures { result ≡ new_with_home place self.now }
    {
        match self {
            Standing::Given => None,
            Standing::Gone => None,
            Standing::New { instr, home } => { if *home == place { Some(*instr) } else { None } }
        }
    }

    /// The place on whose line it is emitted, where it stands at `place`.
    pub(crate) fn home(&self, place: u32) -> u32
        ensures { result ≡ home_at place self.now }
    {
        match self {
            Standing::Given => place,
            Standing::Gone => place,
            Standing::New { instr: _, home } => *home,
        }
    }
}
