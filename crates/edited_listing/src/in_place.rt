//! Lines that are gone through once, and stay or give way to others where they stand.
ghost use Rattle.std.specs.Prelude.{◌≡◌, ◌+◌, ◌<◌, ◌≤◌, ◌++◌, ◌∷◌, [], drop, length, map, take};
ghost use Rattle.listing_parser.specs.Views.{line_view};

use listing_parser::{FunctionMark, ListingLine, Statement};
use std::alloc::{AllocError, Global};
use std::marker::Model;
use std::mem::replace;

/// Lines of which the first are emitted, and the others are left. Contracts see both lists.
///
/// Of `lines` the first `done` are emitted, those from `next` on are left, and those between are free. Lines that are emitted after the first `done` are in
/// `waiting` until there is room for all of them.
#[derive(Drop)]
pub(crate) struct InPlace {
    lines: Vec<ListingLine>,
    done: usize,
    next: usize,
    waiting: Vec<ListingLine>,
}

impl Model for InPlace {
    ghost use Rattle.edited_listing.specs.Progress.{Progress};

    ghost Value = { Progress };

    ghost use Rattle.edited_listing.specs.InPlace.{progress, IsInPlace};

    ghost view = { progress };

    ghost invariant = { IsInPlace };
}

/// Moves the line at `from` down to `to`, unless both are one.
fn move_down(lines: &mut Vec<ListingLine>, to: usize, from: usize)
    requires order { to ≤ from }
    requires within { from < length lines.old.items }
    ensures many { length lines.new.items ≡ length lines.old.items }
    ensures moved { take (to + 1) (map line_view lines.new.items) ≡ take to (map line_view lines.old.items) ++ take 1 (drop from (map line_view lines.old.items)) }
    ensures behind { drop (from + 1) (map line_view lines.new.items) ≡ drop (from + 1) (map line_view lines.old.items) }
{
    if to < from {
        lines.swap(to, from);
    }
}

/// Takes a line out, and leaves one that says nothing.
fn take_out(alloc: Global, lines: &mut Vec<ListingLine>, at: usize) -> ListingLine
    requires { at < length lines.old.items }
    ensures many { length lines.new.items ≡ length lines.old.items }
    ensures taken { take 1 (drop at (map line_view lines.old.items)) ≡ line_view result ∷ [] }
    ensures before { take at lines.new.items ≡ take at lines.old.items }
    ensures behind { drop (at + 1) lines.new.items ≡ drop (at + 1) lines.old.items }
{
    let nothing = ListingLine {
        names: Vec::new(alloc),
        statement: Statement::Nothing,
        mark: FunctionMark::Nothing,
        text: Vec::new(alloc),
        front: 0,
    };
    replace(&mut lines[at], nothing)
}

/// Puts lines over those from `from` on.
fn put(lines: &mut Vec<ListingLine>, from: usize, new: &mut Vec<ListingLine>)
    requires { from + length new.old.items ≤ length lines.old.items }
    ensures lines { lines.new.items ≡ take from lines.old.items ++ (new.old.items ++ drop (from + length new.old.items) lines.old.items) }
    ensures none { new.new.items ≡ [] }
{
    let mut at = from + new.len();
    while let Some(line) = new.pop() {
        at -= 1;
        lines[at] = line;
    }
}

impl InPlace {
    ghost use Rattle.std.specs.Prelude.{◌≡◌, ◌<◌, ◌++◌, ◌∷◌, ◌==◌, [], drop, length, map, take, IfOk, OnOk};
    ghost use Rattle.listing_parser.specs.Views.{line_view};

    /// Lines of which none is emitted yet.
    pub(crate) fn new(alloc: Global, lines: Vec<ListingLine>) -> Self
        ensures { result ≡ record { emitted = []; left = map line_view lines.items } }
    {
        InPlace {
            lines,
            done: 0,
            next: 0,
            waiting: Vec::new(alloc),
        }
    }

    /// Whether none is left.
    pub(crate) fn is_at_end(&self) -> bool
        ensures { result ≡ (length self.now.left == 0) }
    {
        self.next == self.lines.len()
    }

    /// The first of those that are left.
    pub(crate) fn next(&self) -> &ListingLine
        requires { 0 < length self.now.left }
        ensures { self.now.left ≡ line_view result.now ∷ drop 1 self.now.left }
    {
        &self.lines[self.next]
    }

    /// Puts the waiting lines behind the first `done`, if there is room for all of them.
    fn settle(&mut self)
        ensures { self.new ≡ self.old }
    {
        let count = self.waiting.len();
        if count <= self.next - self.done {
            put(&mut self.lines, self.done, &mut self.waiting);
            self.done += count;
        }
    }

    /// Emits the first of those that are left as it is.
    pub(crate) fn keep(&mut self, alloc: Global) -> Result<(), AllocError>
        requires { 0 < length self.old.left }
        ensures { OnOk result (self.new ≡ record { emitted = self.old.emitted ++ take 1 self.old.left; left = drop 1 self.old.left }) }
    {
        if self.waiting.is_empty() {
            move_down(&mut self.lines, self.done, self.next);
            self.done += 1;
            self.next += 1;
            return Ok(());
        }
        let line = take_out(alloc, &mut self.lines, self.next);
        self.waiting.push(line)?;
        self.next += 1;
        self.settle();
        Ok(())
    }

    /// Lets the first of those that are left give way to others, which are emitted.
    pub(crate) fn give_way(&mut self, new: &mut Vec<ListingLine>) -> Result<(), AllocError>
        requires { 0 < length self.old.left }
        ensures lines { OnOk result (self.new ≡ record { emitted = self.old.emitted ++ map line_view new.old.items; left = drop 1 self.old.left }) }
        ensures none { OnOk result (new.new.items ≡ []) }
    {
        self.waiting.append(new)?;
        self.next += 1;
        self.settle();
        Ok(())
    }

    /// The emitted lines.
    pub(crate) fn into_emitted(self) -> Result<Vec<ListingLine>, AllocError>
        ensures { IfOk result (λ lines. map line_view lines.items ≡ self.emitted) }
    {
        let InPlace {
            mut lines,
            done,
            next: _,
            mut waiting,
        } = self;
        lines.truncate(done);
        lines.append(&mut waiting)?;
        Ok(lines)
    }
}
