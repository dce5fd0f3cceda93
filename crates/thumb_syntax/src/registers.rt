//! The names of registers, in either case, with the calling standard's second names. The second byte of a name selects the few that are searched.
ghost use Rattle.std.specs.Prelude.{◌≡◌, ◌<◌, map, length};
ghost use Rattle.thumb_syntax.specs.Operands.{register_named, register_in};
ghost use Rattle.thumb_syntax.specs.RegisterPlaces.{named_at, registers_by_place, second_place};
ghost use Rattle.thumb_syntax.specs.RegisterView.{named};

use ascii_scan::is_spelled;

/// A name of a register, in lower case, and the register's number.
pub struct Register {
    pub name: &'static [u8],
    pub number: u32,
}

macro_rules! register {
    ($name:literal: $number:literal) => {
        Register {
            name: $name,
            number: $number,
        }
    };
}

/// The registers, indexed by the second byte of their name modulo 32.
static REGISTERS: [&[Register]; 32] = [
    &[],
    &[],
    &[register!(b"sb": 9)],
    &[register!(b"pc": 15)],
    &[],
    &[],
    &[],
    &[],
    &[],
    &[],
    &[],
    &[],
    &[register!(b"sl": 10)],
    &[],
    &[],
    &[],
    &[
        register!(b"r0": 0),
        register!(b"fp": 11),
        register!(b"ip": 12),
        register!(b"sp": 13),
    ],
    &[
        register!(b"r1": 1),
        register!(b"r10": 10),
        register!(b"r11": 11),
        register!(b"r12": 12),
        register!(b"r13": 13),
        register!(b"r14": 14),
    ],
    &[register!(b"r2": 2), register!(b"lr": 14)],
    &[register!(b"r3": 3)],
    &[register!(b"r4": 4)],
    &[register!(b"r5": 5)],
    &[register!(b"r6": 6)],
    &[register!(b"r7": 7)],
    &[register!(b"r8": 8)],
    &[register!(b"r9": 9)],
    &[],
    &[],
    &[],
    &[],
    &[],
    &[],
];

fn registers() -> &'static [&'static [Register]]
    ensures registers { named_at result.now ≡ registers_by_place }
    ensures places { length result.now ≡ 32 }
{
    &REGISTERS
}

/// The index of a word in the table of registers, by its second byte.
fn place_of(word: &[u8]) -> usize
    ensures place { result ≡ second_place word.now }
    ensures within { result < 32 }
{
    match word {
        [_, second, ..] => (*second % 32) as usize,
        _ => 0,
    }
}

/// The number of the first register with this name.
fn number_in(registers: &[Register], word: &[u8]) -> Option<u32>
    ensures { result ≡ register_in (map named registers.now) word.now }
{
    for register in registers {
        if is_spelled(word, register.name) {
            return Some(register.number);
        }
    }
    None
}

/// The number of the register of this name, in either case.
pub fn register_named(word: &[u8]) -> Option<u32>
    ensures { result ≡ register_named word.now }
{
    number_in(registers()[place_of(word)], word)
}
