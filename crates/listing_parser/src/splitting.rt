//! Splits bytes behind blanks, words and names, and at colons and comments: the small steps of which the reading of lines consists.
ghost use Rattle.std.specs.Prelude.{◌≡◌};
ghost use Rattle.std.specs.List.{prefix_len};
ghost use Rattle.ascii_scan.specs.Names.{is_name_byte};
ghost use Rattle.ascii_scan.specs.Tokens.{front, rest, is_blank};
ghost use Rattle.listing_parser.specs.Grammar.{is_no_colon, is_no_at, begins_hash, code};
ghost use Rattle.listing_parser.specs.Directives.{is_word_byte};

use ascii_scan::is_name_byte;

fn is_blank(byte: u8) -> bool
    ensures { result ≡ is_blank byte }
{
    byte == b' ' || byte == b'\t'
}

fn blank_len(bytes: &[u8]) -> usize
    ensures { result ≡ prefix_len is_blank bytes.now }
{
    bytes.iter().take_while(|b| is_blank(**b)).count()
}

/// The bytes from the first that is no blank on.
#[tactic(auto, using(crate::proofs::FrontLemmas::fronts))]
pub fn without_blanks(bytes: &[u8]) -> &[u8]
    ensures { result.now ≡ rest is_blank bytes.now }
{
    let (_, after) = bytes.split_at(blank_len(bytes));
    after
}

fn is_word_byte(byte: u8) -> bool
    ensures { result ≡ is_word_byte byte }
{
    !is_blank(byte)
}

fn word_len(bytes: &[u8]) -> usize
    ensures { result ≡ prefix_len is_word_byte bytes.now }
{
    bytes.iter().take_while(|b| is_word_byte(**b)).count()
}

/// The bytes up to the first blank, and those from there on.
#[tactic(auto, using(crate::proofs::FrontLemmas::fronts))]
pub fn split_word(bytes: &[u8]) -> (&[u8], &[u8])
    ensures front { result.0.now ≡ front is_word_byte bytes.now }
    ensures rest { result.1.now ≡ rest is_word_byte bytes.now }
{
    bytes.split_at(word_len(bytes))
}

fn name_len(bytes: &[u8]) -> usize
    ensures { result ≡ prefix_len is_name_byte bytes.now }
{
    bytes.iter().take_while(|b| is_name_byte(**b)).count()
}

/// The longest run of name bytes at the front, and the bytes after it.
#[tactic(auto, using(crate::proofs::FrontLemmas::fronts))]
pub fn split_name(bytes: &[u8]) -> (&[u8], &[u8])
    ensures front { result.0.now ≡ front is_name_byte bytes.now }
    ensures rest { result.1.now ≡ rest is_name_byte bytes.now }
{
    bytes.split_at(name_len(bytes))
}

fn colon_len(bytes: &[u8]) -> usize
    ensures { result ≡ prefix_len is_no_colon bytes.now }
{
    bytes.iter().take_while(|b| **b != b':').count()
}

/// The bytes up to the first colon, and those from there on.
#[tactic(auto, using(crate::proofs::FrontLemmas::fronts))]
pub fn split_colon(bytes: &[u8]) -> (&[u8], &[u8])
    ensures front { result.0.now ≡ front is_no_colon bytes.now }
    ensures rest { result.1.now ≡ rest is_no_colon bytes.now }
{
    bytes.split_at(colon_len(bytes))
}

fn comment_len(bytes: &[u8]) -> usize
    ensures { result ≡ prefix_len is_no_at bytes.now }
{
    bytes.iter().take_while(|b| **b != b'@').count()
}

/// The bytes up to the first `@`.
#[tactic(auto, using(crate::proofs::FrontLemmas::fronts))]
fn before_at(bytes: &[u8]) -> &[u8]
    ensures { result.now ≡ front is_no_at bytes.now }
{
    let (front, _) = bytes.split_at(comment_len(bytes));
    front
}

fn begins_hash(bytes: &[u8]) -> bool
    ensures { result ≡ begins_hash bytes.now }
{
    match bytes.split_first() {
        None => false,
        Some((first, _)) => *first == b'#',
    }
}

/// A line's bytes without its comment.
#[tactic(auto, unfolding(crate::specs::Grammar::code))]
pub fn code(bytes: &[u8]) -> &[u8]
    ensures { result.now ≡ code bytes.now }
{
    if begins_hash(without_blanks(bytes)) {
        &[]
    } else {
        before_at(bytes)
    }
}
