//! How a case shows the texts that a command keeps or prints: in full, or by the name of a text that the case knows already, so that outputs stay short.
use crate::page::Page;
use crate::runs::Notes;

/// Whether the bytes are printable ASCII, tabs and newlines.
fn is_plain(text: &[u8]) -> bool {
    for byte in text {
        if !matches!(*byte, b'\n' | b'\t' | b' '..=b'~') {
            return false;
        }
    }
    true
}

/// Shows the lines of a text as a script writes them.
fn show_lines(text: &[u8], page: &mut Page) {
    let mut begins = true;
    for byte in text {
        if begins {
            page.add("|");
        }
        page.add_bytes(&[*byte]);
        begins = *byte == b'\n';
    }
    if !begins {
        page.add("\nbare\n");
    }
}

/// Whether a text contains a piece.
fn has_piece(text: &[u8], piece: &[u8]) -> bool {
    for at in 0..text.len() {
        if text[at..].starts_with(piece) {
            return true;
        }
    }
    false
}

/// The first of the words under which this text is known, if any.
fn name_of<'a>(notes: &Notes, words: &'a [String], text: &[u8]) -> Option<&'a str> {
    for word in words {
        if notes.known.held(word.as_str()) == Some(text) {
            return Some(word.as_str());
        }
    }
    None
}

/// Shows all of a text, by its lines or by the digits of its bytes.
fn show_all(notes: &Notes, text: &[u8], page: &mut Page) {
    if is_plain(text) {
        page.add("\n");
        return show_lines(text, page);
    }
    match hex::encode(notes.alloc, text) {
        Ok(digits) => {
            page.add("\nbytes ");
            page.add(digits.as_str());
            page.add("\n");
        }
        Err(_) => page.note(false),
    }
}

/// Shows a name and its text: whether the text has the piece that is sought there, or under which of the words it is known, or else all of it.
pub(crate) fn show(notes: &Notes, words: &[String], name: &str, text: &[u8], page: &mut Page) {
    page.add(name);
    if let Some(piece) = notes.sought.held(name) {
        page.add(if has_piece(text, piece) {
            " has its piece\n"
        } else {
            " lacks its piece\n"
        });
        return;
    }
    match name_of(notes, words, text) {
        Some(word) => {
            page.add(" as ");
            page.add(word);
            page.add("\n");
        }
        None => show_all(notes, text, page),
    }
}
