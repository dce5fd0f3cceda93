//! Blocks of lines, in which a kept layout is moved: what they begin with, where they lie, and how many bytes they take.
ghost use Rattle.std.specs.Prelude.{◌≡◌, ◌+◌, ◌≤◌, ◌^◌, IfOk};
ghost use Rattle.kept_layout.specs.Blocks.{padding_of as padding_at};

use label_layout::{CODE_END, padding};
use listing_parser::Memory;
use thumb_instr::Instr;

/// Where a mentioned name lies.
#[derive(Clone, Copy)]
pub enum NameLocation {
    /// At the label with which the block of this number begins.
    Block(usize),
    /// At an address that is set, with bit 0 cleared.
    Address(u32),
}

/// An instruction that mentions a name.
#[derive(Clone, Copy)]
pub struct Aim {
    pub instr: Instr,
    /// Where the name lies, if anywhere.
    pub to: Option<NameLocation>,
    /// What is added to it, in bytes.
    pub plus: u32,
}

/// What a block begins with.
#[derive(Clone, Copy)]
pub enum Head {
    /// Nothing that depends on where it lies.
    Plain,
    /// An alignment to a multiple of `size` bytes, unless that takes more than `most` bytes.
    Pads { size: u32, most: u32 },
    /// An instruction that mentions a name.
    Aims(Aim),
}

/// Consecutive lines, of which the first alone may have labels, mention a name or align: but for that line nothing in a block depends on where the block
/// lies.
#[derive(Drop)]
pub struct Block {
    /// The address that is noted for its first byte: the block lies `Lag::of` bytes before it.
    pub at: u32,
    pub head: Head,
    /// How many bytes it takes, without its padding.
    pub bytes: u32,
    /// How many places it has.
    pub places: usize,
    /// The numbers of the blocks that begin with an instruction that mentions its label.
    pub callers: Vec<usize>,
    /// A multiple of the sizes of all alignments from this block on, and of 4 where a literal or a literal's label is at or after it; 0 if no other is known.
    pub alignment: u32,
}

/// What a head pads at an address.
fn padding_of(head: &Head, at: u32) -> u32
    ensures { result ≡ padding_at head.now at }
{
    match head {
        Head::Pads { size, most } => padding(*size, *most, at),
        _ => 0,
    }
}

/// The address after a block that begins at `at`. `Memory` where it lies past the end of the Code region.
pub(crate) fn behind(at: u32, head: &Head, bytes: u32) -> Result<u32, Memory>
    requires { at ≤ 2 ^ 29 }
    ensures value { IfOk result (λ end. end ≡ at + (padding_at head.now at + bytes)) }
    ensures in_code { IfOk result (λ end. end ≤ 2 ^ 29) }
{
    let padded = padding_of(head, at);
    if padded <= CODE_END - at && bytes <= CODE_END - at - padded {
        Ok(at + padded + bytes)
    } else {
        Err(Memory)
    }
}
