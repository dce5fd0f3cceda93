//! Which words are names of labels and which are register names: one definition, so that every reader takes the same words for a name.
ghost use Rattle.std.specs.Prelude.{◌≡◌, map};
ghost use Rattle.std.specs.List.{list_any, prefix_len};
ghost use Rattle.ascii_scan.specs.Tokens.{front};
ghost use Rattle.ascii_scan.specs.Names.{is_name_byte, is_opening, is_register, is_spelled, name_length, register_names};

/// The names of registers, in lower case.
static REGISTERS: [&[u8]; 22] = [
    b"r0", b"r1", b"r2", b"r3", b"r4", b"r5", b"r6", b"r7", b"r8", b"r9", b"r10", b"r11", b"r12",
    b"r13", b"r14", b"sb", b"sl", b"fp", b"ip", b"sp", b"lr", b"pc",
];

#[tactic(auto, unfolding(crate::specs::Names::register_names))]
fn registers() -> &'static [&'static [u8]]
    ensures { map (λ name. name.now) result.now ≡ register_names }
{
    &REGISTERS
}

/// Whether the word is the name, ignoring the case of letters.
pub fn is_spelled(word: &[u8], name: &[u8]) -> bool
    ensures { result ≡ is_spelled word.now name.now }
{
    word.eq_ignore_ascii_case(name)
}

/// Whether the word is one of the names, ignoring the case of letters.
fn is_among(word: &[u8], names: &[&[u8]]) -> bool
    ensures { result ≡ list_any (λ name. is_spelled word.now name.now) names.now }
{
    names.iter().any(|name| is_spelled(word, name))
}

/// The length of the longest register name, in bytes.
const LONGEST_REGISTER: usize = 3;

fn is_some_register(word: &[u8]) -> bool
    ensures { result ≡ is_register word.now }
{
    is_among(word, registers())
}

fn is_register(word: &[u8]) -> bool
    ensures { result ≡ is_register word.now }
{
    if word.len() > LONGEST_REGISTER {
        false
    } else {
        is_some_register(word)
    }
}

fn is_opening(byte: u8) -> bool
    ensures { result ≡ is_opening byte }
{
    byte.is_ascii_alphabetic() || byte == b'_' || byte == b'.' || byte == b'$'
}

/// Whether the byte may stand in a name.
pub fn is_name_byte(byte: u8) -> bool
    ensures { result ≡ is_name_byte byte }
{
    is_opening(byte) || byte.is_ascii_digit()
}

fn run_length(bytes: &[u8]) -> usize
    ensures { result ≡ prefix_len is_name_byte bytes.now }
{
    bytes.iter().take_while(|b| is_name_byte(**b)).count()
}

/// The longest run of name bytes at the front.
fn front_word(bytes: &[u8]) -> &[u8]
    ensures { result.now ≡ front is_name_byte bytes.now }
{
    let (word, _) = bytes.split_at(run_length(bytes));
    word
}

/// The length in bytes of the name at the front: a letter, `_`, `.` or `$`, then as many of these and of digits as follow.
/// None where no name begins there, or where these bytes are a register's name in upper or lower case.
pub fn name(bytes: &[u8]) -> Option<usize>
    ensures { result ≡ name_length bytes.now }
{
    match bytes.split_first() {
        None => None,
        Some((first, _)) => {
            let word = front_word(bytes);
            if is_opening(*first) && !is_register(word) {
                Some(word.len())
            } else {
                None
            }
        }
    }
}
