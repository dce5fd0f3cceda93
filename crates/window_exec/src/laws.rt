//! The laws of steps of a window. Each is the contract of a function that does nothing.

ghost use Rattle.window_exec.specs.Normal.{NormalKeepsTheStep};
ghost use Rattle.window_exec.specs.Untold.{EqualIsUntold};

/// The normal form of an instruction has the same effect.
pub fn normal_keeps_the_step()
    ensures { NormalKeepsTheStep }
{}

/// Two sequences are equal on a mask exactly where no state tells them apart.
pub fn equal_sequences_are_untold()
    ensures { EqualIsUntold }
{}
