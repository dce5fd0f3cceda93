//! What a line of a listing says, beside the bytes that it was read from: labels, one statement, and what it marks as a function.
ghost use Rattle.std.specs.Prelude.{◌≡◌};
ghost use Rattle.thumb_model.specs.Listing.{is_call_instr};

use thumb_instr::Instr;

/// A name with a number added to what it stands for, modulo 2^32.
#[derive(Drop)]
pub struct Mention {
    /// The name's bytes.
    pub name: Vec<u8>,
    /// What is added, in bytes.
    pub plus: u32,
}

/// A word of data.
#[derive(Drop)]
pub enum Value {
    /// A number.
    Number(u32),
    /// What a name with a number added stands for.
    OfName(Mention),
}

/// What a line says.
#[derive(Drop)]
pub enum Statement {
    /// Nothing that lies in memory or has a meaning of its own.
    Nothing,
    /// An instruction, and the name that it mentions, if any. The instruction's own displacement is 0 then.
    Instruction {
        instr: Instr,
        mention: Option<Mention>,
    },
    /// `.word`: words of data, at least one.
    Words(Vec<Value>),
    /// `.align` or `.p2align`: padding to a multiple of `size` bytes, a power of two up to 256, or none if that takes more than `most` bytes.
    Aligns {
        size: u32,
        most: u32,
    },
    /// `.set` or `.equ`: the address of a name.
    Sets {
        name: Vec<u8>,
        address: u32,
    },
}

impl Statement {
    ghost use Rattle.std.specs.Prelude.{◌≡◌, length};
    ghost use Rattle.thumb_model.specs.Listing.{places_in};
    ghost use Rattle.listing_parser.specs.Views.{statement_view};

    /// How many places it has.
    pub fn places(&self) -> usize
        ensures { result ≡ length (places_in (statement_view self.now)) }
    {
        match self {
            Statement::Instruction { .. } => 1,
            Statement::Words(values) => values.len(),
            _ => 0,
        }
    }
}

/// What a line says of functions.
#[derive(Drop)]
pub enum FunctionMark {
    /// Nothing.
    Nothing,
    /// `.thumb_func`: the next label, on a later line, is a function.
    Next,
    /// `.type name, %function`: the name is a function.
    Named(Vec<u8>),
}

/// A line of a listing.
#[derive(Drop)]
pub struct ListingLine {
    /// The names of its labels, in order.
    pub names: Vec<Vec<u8>>,
    pub statement: Statement,
    pub mark: FunctionMark,
    /// Its bytes, with its newline where it has one.
    pub text: Vec<u8>,
    /// How many bytes it has up to and including its last label's colon; 0 where it has no label.
    pub front: usize,
}

/// A place of a listing: an instruction or a data word.
#[derive(Clone, Copy)]
pub enum Place<'a> {
    /// An instruction, and the name that it mentions.
    Op {
        instr: Instr,
        mention: Option<&'a Mention>,
    },
    /// A word of data.
    Word(&'a Value),
}

/// Whether an instruction is a call: BL or BLX.
pub fn is_call(instr: &Instr) -> bool
    ensures { result ≡ is_call_instr instr.now }
{
    matches!(instr, Instr::Blx { .. } | Instr::Call { .. })
}

impl Place<'_> {
    ghost use Rattle.std.specs.Prelude.{◌≡◌};
    ghost use Rattle.thumb_model.specs.Listing.{is_call};
    ghost use Rattle.listing_parser.specs.Views.{place_view};

    /// Whether a call stands there.
    pub fn is_call(self) -> bool
        ensures { result ≡ is_call (place_view self.entry) }
    {
        match self {
            Place::Op { instr, .. } => is_call(&instr),
            Place::Word(_) => false,
        }
    }
}
