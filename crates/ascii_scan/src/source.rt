//! The longest text, and an iterator over the lines of a text, each with its number and offset, which copies no byte.
ghost use Rattle.std.specs.Prelude.{◌≡◌, ◌+◌, ◌<◌, ◌≤◌, ◌^◌, ◌∷◌, [], length, IfSome, MatchOption};
ghost use Rattle.std.specs.List.{prefix_len};
ghost use Rattle.ascii_scan.specs.Lines.{content_of, is_ended, lines_of, LinesJoinToText, LinesAreSlices};
ghost use Rattle.ascii_scan.specs.Tokens.{front, rest};
ghost use Rattle.ascii_scan.specs.FirstLine.{is_inside, first_line, after_first};

/// The most bytes of a text that is read, and of a table's text that is made.
pub const TEXT_LIMIT: usize = 67_108_864;

/// A line of a source.
#[derive(Clone, Copy)]
pub struct SourceLine<'a> {
    /// Its number, from 1.
    pub number: usize,
    /// The offset of its first byte in the source.
    pub start: usize,
    /// The offset of its newline, or the length of the source where it has none.
    pub end: usize,
    /// Its bytes, without the newline.
    pub text: &'a [u8],
    /// Whether a newline ends it.
    pub is_ended: bool,
}

/// The first line of a text.
#[derive(Clone, Copy)]
struct FirstLine<'a> {
    /// Its bytes without the newline.
    text: &'a [u8],
    is_ended: bool,
    /// How many bytes it has with its newline.
    size: usize,
    /// The bytes after it.
    after: &'a [u8],
}

fn line_len(bytes: &[u8]) -> usize
    ensures { result ≡ prefix_len is_inside bytes.now }
{
    bytes.iter().take_while(|b| **b != b'\n').count()
}

/// The bytes before the first newline, and those from the newline on.
fn split_line(bytes: &[u8]) -> (&[u8], &[u8])
    ensures line { result.0.now ≡ front is_inside bytes.now }
    ensures rest { result.1.now ≡ rest is_inside bytes.now }
{
    bytes.split_at(line_len(bytes))
}

/// The first line of a text; of an empty text it is empty.
fn first_line(bytes: &[u8]) -> FirstLine<'_>
    ensures text { result.text.now ≡ content_of (first_line bytes.now) }
    ensures ended { result.is_ended ≡ is_ended (first_line bytes.now) }
    ensures size { result.size ≡ length (first_line bytes.now) }
    ensures after { result.after.now ≡ after_first bytes.now }
{
    let (text, rest) = split_line(bytes);
    match rest.split_first() {
        None => FirstLine {
            text,
            is_ended: false,
            size: bytes.len(),
            after: rest,
        },
        Some((_, after)) => FirstLine {
            text,
            is_ended: true,
            size: bytes.len() - after.len(),
            after,
        },
    }
}

/// The first line, or None where the text is empty.
#[tactic(auto, using(crate::proofs::LineLemmas::firsts))]
fn next_line(bytes: &[u8]) -> Option<FirstLine<'_>>
    ensures lines { MatchOption result (lines_of bytes.now ≡ []) (λ r. lines_of bytes.now ≡ first_line bytes.now ∷ lines_of r.after.now) }
    ensures text { IfSome result (λ r. r.text.now ≡ content_of (first_line bytes.now)) }
    ensures ended { IfSome result (λ r. r.is_ended ≡ is_ended (first_line bytes.now)) }
    ensures size { IfSome result (λ r. r.size ≡ length (first_line bytes.now)) }
    ensures some { IfSome result (λ r. 0 < r.size) }
    ensures within { IfSome result (λ r. length r.text.now ≤ r.size) }
    ensures parts { IfSome result (λ r. r.size + length r.after.now ≡ length bytes.now) }
{
    if bytes.is_empty() {
        None
    } else {
        Some(first_line(bytes))
    }
}

/// The lines of a source that are left to yield, in order.
#[derive(Drop)]
pub struct Lines<'a> {
    /// The bytes of the lines that are left.
    rest: &'a [u8],
    /// The offset in the source of the first of them.
    start: usize,
    /// How many lines are before them.
    passed: usize,
    ghost fits: { start + length rest.now < 2 ^ 64 },
    ghost few: { passed ≤ start },
}

impl<'a> Lines<'a> {
    ghost use Rattle.std.specs.Prelude.{◌≡◌};
    ghost use Rattle.ascii_scan.specs.Lines.{lines_of, placed_from};
    ghost use Rattle.ascii_scan.specs.Source.{lines_left};

    /// The lines of a source. A newline ends its line, and the last line may lack it; an empty source has no line.
    pub fn new(source: &'a [u8]) -> Self
        ensures { lines_left result ≡ placed_from 1 0 (lines_of source.entry.now) }
    {
        Lines {
            rest: source,
            start: 0,
            passed: 0,
        }
    }
}

/// The lines of a text, joined, are the text.
pub fn lines_join_to_the_text()
    ensures { LinesJoinToText }
{}

/// Each line's bytes are those of the text from its `start` to before its `end`.
#[tactic(auto, using(crate::proofs::LineLemmas::lines_slices))]
pub fn lines_are_slices()
    ensures { LinesAreSlices }
{}

impl<'a> Iterator for Lines<'a> {
    type Item = SourceLine<'a>;

    ghost use Rattle.std.specs.Iterator.{YieldsFirstBy, item_count};
    ghost use Rattle.ascii_scan.specs.Source.{lines_left, line_view};

    ghost next_gives = { YieldsFirstBy line_view lines_left };

    ghost remaining = { item_count lines_left };

    fn next(&mut self) -> Option<SourceLine<'a>> {
        match next_line(self.rest) {
            None => None,
            Some(first) => {
                let line = SourceLine {
                    number: self.passed + 1,
                    start: self.start,
                    end: self.start + first.text.len(),
                    text: first.text,
                    is_ended: first.is_ended,
                };
                self.start += first.size;
                self.passed += 1;
                self.rest = first.after;
                Some(line)
            }
        }
    }
}
