//! The type of a row of the encoding table. Rows are data, so that encoding, decoding and the laws about both use the same rows.

/// Which register or number of an instruction, in the order of its text.
#[derive(Clone, Copy, Debug)]
pub enum OperandPosition {
    First,
    Second,
    Third,
}

/// A piece of a row: bits that are fixed, or that hold a part of a register or number.
#[derive(Clone, Copy, Debug)]
pub enum Piece {
    /// Fixed bits: their width and their value.
    Fixed(u32, u32),
    /// Bits of a register or number: their width, which number, its lowest bit that they hold, and their least value.
    Bits(u32, OperandPosition, u32, u32),
    /// The lowest bits of a number: their width w, and which number. They are 0 where the number is 2^w.
    Amount(u32, OperandPosition),
    /// One bit, which is 1 where two bits of a number are equal: which number, and the two bits; reading yields the first of them.
    Same(OperandPosition, u32, u32),
}

/// A code: one or two halfwords, the first of which is at the lower address.
#[derive(Clone, Copy, Debug, PartialEq, Eq)]
pub enum Code {
    One(u16),
    Two(u16, u16),
}
