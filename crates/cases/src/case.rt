//! A case: its words are taken from the front one by one, each as the number or text that is asked for, and its answer is written item by item. So all cases
//! are read and answered in one form.
use crate::escapes::bytes_of;
use outer_store::{Sink, SinkError};
use std::alloc::Global;
use std::fmt::{Debug, Display};

/// What of a line hasn't been read yet, and the answer so far, on one line or a few, with a blank behind each item. A case is void if a word of it can't be
/// read, or memory runs out.
#[derive(Drop)]
pub(crate) struct Case<'a> {
    pub(crate) alloc: Global,
    rest: &'a str,
    answer: String,
    is_void: bool,
}

impl<'a> Case<'a> {
    pub(crate) fn of(alloc: Global, line: &'a str) -> Self {
        Case {
            alloc,
            rest: line,
            answer: String::new(alloc),
            is_void: false,
        }
    }

    /// The next word: empty where none is left.
    pub(crate) fn word(&mut self) -> &'a str {
        let (word, rest) = self.rest.split_once(' ').unwrap_or((self.rest, ""));
        self.rest = rest;
        word
    }

    /// What goes on to the line's end.
    pub(crate) fn rest(&self) -> &'a str {
        self.rest
    }

    /// The text that goes on to the line's end.
    pub(crate) fn text(&self) -> Option<Vec<u8>> {
        self.text_behind(0)
    }

    /// The text that stands behind so many words, which are still to be read.
    pub(crate) fn text_behind(&self, words: u8) -> Option<Vec<u8>> {
        let words = usize::from(words);
        let text = self.rest.splitn(words + 1, ' ').nth(words)?;
        bytes_of(self.alloc, text)
    }

    /// A hexadecimal number. If the word is none, the case is void, and 0 stands for it; so it is with other numbers.
    pub(crate) fn hex(&mut self) -> u32 {
        let number = u32::from_str_radix(self.word(), 16);
        self.is_void |= number.is_err();
        number.unwrap_or(0)
    }

    /// A hexadecimal number of 16 bits.
    pub(crate) fn halfword(&mut self) -> u16 {
        let number = u16::from_str_radix(self.word(), 16);
        self.is_void |= number.is_err();
        number.unwrap_or(0)
    }

    /// A decimal number.
    pub(crate) fn number(&mut self) -> u32 {
        let number = self.word().parse();
        self.is_void |= number.is_err();
        number.unwrap_or(0)
    }

    /// `1` is true, any other number false.
    pub(crate) fn bit(&mut self) -> bool {
        self.number() == 1
    }

    /// Adds a word or a decimal number.
    pub(crate) fn add<T: Copy + Display + Drop>(&mut self, item: T) {
        self.is_void |= write!(self.answer, "{item} ").is_err();
    }

    /// Adds a hexadecimal number.
    pub(crate) fn add_hex(&mut self, number: u32) {
        self.is_void |= write!(self.answer, "{number:x} ").is_err();
    }

    /// Adds a checksum and ends the line.
    pub(crate) fn add_digest(&mut self, digest: u32) {
        self.is_void |= writeln!(self.answer, "{digest:08x}").is_err();
    }

    /// Adds hexadecimal numbers.
    pub(crate) fn add_hexes(&mut self, numbers: &[u32]) {
        for number in numbers {
            self.add_hex(*number);
        }
    }

    fn add_byte(&mut self, byte: u8) {
        let added = match byte {
            b'\n' => self.answer.push_str("\\n").is_ok(),
            b'\r' => self.answer.push_str("\\r").is_ok(),
            b'\t' => self.answer.push_str("\\t").is_ok(),
            b' '..=b'[' | b']'..=b'~' => self.answer.push(char::from(byte)).is_ok(),
            _ => write!(self.answer, "\\x{byte:02x}").is_ok(),
        };
        self.is_void |= !added;
    }

    /// Adds a text, in the spelling that `escapes` reads.
    pub(crate) fn add_bytes(&mut self, bytes: &[u8]) {
        for byte in bytes {
            self.add_byte(*byte);
        }
        self.add(if bytes.is_empty() { "''" } else { "" });
    }

    /// Ends a line.
    pub(crate) fn end_line(&mut self) {
        if self.answer.ends_with(' ') {
            self.answer.pop();
        }
        self.is_void |= self.answer.push('\n').is_err();
    }

    /// Adds a line.
    pub(crate) fn add_line(&mut self, line: &str) {
        self.is_void |= writeln!(self.answer, "{line}").is_err();
    }

    /// Adds a line with the result of a call: `ok` or the error.
    pub(crate) fn tell<T: Drop, E: Debug + Drop>(&mut self, answer: Result<T, E>) {
        match answer {
            Ok(_) => self.add_line("ok"),
            Err(error) => self.is_void |= writeln!(self.answer, "{error:?}").is_err(),
        }
    }

    /// Makes the case void if it couldn't be answered.
    pub(crate) fn end(&mut self, answered: Option<()>) {
        self.is_void |= answered.is_none();
    }

    /// Writes the answer; `?` if the case is void.
    pub(crate) fn put<O: Sink>(&self, output: &mut O) -> Result<(), SinkError> {
        if self.is_void {
            output.put(b"?\n")
        } else {
            output.put(self.answer.as_bytes())
        }
    }
}
