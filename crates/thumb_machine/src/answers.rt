//! The answers of the outside, given in advance: so a run is a function of them and of its start.
ghost use Rattle.std.specs.Prelude.{◌≡◌, ◌<◌, [], ◌∷◌, length, drop, MatchOption};

use std::marker::Model;

/// Bytes by address. Of two at one address the later counts.
#[derive(Debug, Drop)]
pub struct Bytes {
    list: Vec<(u32, u8)>,
}

impl Model for Bytes {
    ghost use Rattle.std.specs.Prelude.{ℕ, List};

    ghost Value = { List (ℕ × ℕ) };

    ghost view = { λ b. b.list.items };
}

impl Bytes {
    /// The bytes of a list of addresses and bytes.
    pub fn new(list: Vec<(u32, u8)>) -> Bytes
        ensures { result ≡ list.items }
    {
        Bytes { list }
    }

    /// The list itself.
    pub fn into_vec(self) -> Vec<(u32, u8)>
        ensures { result.items ≡ self }
    {
        self.list
    }

    /// The addresses and bytes in order.
    pub fn as_slice(&self) -> &[(u32, u8)]
        ensures { result.now ≡ self.now }
    {
        self.list.as_slice()
    }
}

/// What the outside answers: words for r0 to r3, r12 and lr, the flags (N is 8, Z is 4, C is 2 and V is 1), and bytes that it wrote.
#[derive(Debug, Drop)]
pub struct Answer {
    pub words: [u32; 6],
    pub nzcv: u8,
    pub bytes: Bytes,
}

/// What the outside was asked for. The answer to a call sets r0 to r3, r12, lr and the flags, that to a service (SVC) r0 to r3 and r12.
#[derive(Clone, Copy)]
pub(crate) enum Asked {
    Call,
    Service,
}

/// Answers that are given one by one, the first of the list first.
#[derive(Drop)]
pub struct Answers {
    list: Vec<Answer>,
    given: usize,
}

impl Model for Answers {
    ghost use Rattle.std.specs.Prelude.{List, drop, ◌≤◌, length};
    ghost use Rattle.thumb_machine.specs.declared.answers.Answer.{Answer};

    ghost Value = { List Answer };

    ghost view = { λ a. drop a.given a.list.items };

    ghost invariant = { λ a. a.given ≤ length a.list.items };
}

impl Answers {
    /// The answers of a list, of which none is given yet.
    pub fn new(list: Vec<Answer>) -> Answers
        ensures { result ≡ list.items }
    {
        Answers { list, given: 0 }
    }

    /// The answers that are left, the next one first.
    pub fn left(&self) -> &[Answer]
        ensures { result.now ≡ self.now }
    {
        &self.list.as_slice()[self.given..]
    }

    /// The next answer.
    pub(crate) fn next(&self) -> Option<&Answer>
        ensures { MatchOption result (self.now ≡ []) (λ a. self.now ≡ a.now ∷ drop 1 self.now) }
    {
        self.left().first()
    }

    /// Removes the next answer.
    pub(crate) fn pass(&mut self)
        requires { 0 < length self.old }
        ensures { self.new ≡ drop 1 self.old }
    {
        self.given += 1;
    }
}
