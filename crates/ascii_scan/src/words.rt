//! The tokens of a line's statement: words and marks. The readers of instructions and directives look at nothing else.
ghost use Rattle.std.specs.Prelude.{◌≡◌, ◌∷◌, [], MatchOption};
ghost use Rattle.std.specs.List.{prefix_len};
ghost use Rattle.ascii_scan.specs.Tokens.{front, rest, is_blank, is_mark, is_inner, tokens};
ghost use Rattle.ascii_scan.specs.Seen.{seen};

/// A word or a mark of a statement.
#[derive(Clone, Copy)]
pub enum Token<'a> {
    /// A longest run of bytes that are neither blanks nor marks.
    Word(&'a [u8]),
    /// `,`, `[`, `]`, `{` or `}`.
    Mark(u8),
}

fn is_blank_byte(byte: u8) -> bool
    ensures { result ≡ is_blank byte }
{
    byte == b' ' || byte == b'\t'
}

fn is_mark_byte(byte: u8) -> bool
    ensures { result ≡ is_mark byte }
{
    matches!(byte, b',' | b'[' | b']' | b'{' | b'}')
}

fn is_inner_byte(byte: u8) -> bool
    ensures { result ≡ is_inner byte }
{
    !is_blank_byte(byte) && !is_mark_byte(byte)
}

fn inner_len(bytes: &[u8]) -> usize
    ensures { result ≡ prefix_len is_inner bytes.now }
{
    bytes.iter().take_while(|b| is_inner_byte(**b)).count()
}

/// The word at the front, and the bytes after it.
fn split_word(bytes: &[u8]) -> (&[u8], &[u8])
    ensures word { result.0.now ≡ front is_inner bytes.now }
    ensures rest { result.1.now ≡ rest is_inner bytes.now }
{
    bytes.split_at(inner_len(bytes))
}

fn blank_len(bytes: &[u8]) -> usize
    ensures { result ≡ prefix_len is_blank bytes.now }
{
    bytes.iter().take_while(|b| is_blank_byte(**b)).count()
}

/// The bytes without the blanks at their front.
fn without_blanks(bytes: &[u8]) -> &[u8]
    ensures { result.now ≡ rest is_blank bytes.now }
{
    let (_, after) = bytes.split_at(blank_len(bytes));
    after
}

/// The first token of a statement, and the bytes after it. None where only blanks are left.
pub fn next_token(bytes: &[u8]) -> Option<(Token<'_>, &[u8])>
    ensures { MatchOption result (tokens bytes.now ≡ []) (λ r. tokens bytes.now ≡ seen r.0 ∷ tokens r.1.now) }
{
    let bytes = without_blanks(bytes);
    match bytes.split_first() {
        None => None,
        Some((first, after)) => {
            if is_mark_byte(*first) {
                Some((Token::Mark(*first), after))
            } else {
                let (word, after) = split_word(bytes);
                Some((Token::Word(word), after))
            }
        }
    }
}
