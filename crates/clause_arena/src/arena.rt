//! All clauses of a solver in one vector of words, so that propagation reads memory in order and a clause needs no allocation of its own.
ghost use Rattle.std.specs.Prelude.{◌≡◌, ◌≢◌, ℕ, ◌+◌, ◌-◌, ◌*◌, ◌<◌, ◌^◌, List, [], ◌∷◌, ◌++◌, length, replicate, OnOk, OnErr, IfOk, IfSome, Option, Some, None, false, slice_get, ◌↔◌, All};
ghost use Rattle.clause_arena.specs.Contents.{Content, literals_of, chain_of, HasClause, HasLiteral, Watches, IsWatch, WatchesNothing, IsFree, IsWhole, watched, with_chain, with_clause, with_dropped, is_dropped_of, references_of, IsBetween, IsAfter};
ghost use Rattle.clause_arena.specs.Words.{place_of};

use crate::Memory;
use crate::reference::Ref;
use std::alloc::Global;
use std::marker::Model;

/// Clauses, each with two slots that may watch a literal.
#[derive(Drop)]
pub struct Arena {
    alloc: Global,
    words: Vec<u32>,
    heads: Vec<u32>,
}

impl Model for Arena {
    ghost use Rattle.clause_arena.specs.Contents.{Content};
    ghost use Rattle.clause_arena.specs.Words.{content_of, IsArena};

    ghost Value = { Content };

    ghost view = { λ a. content_of a.words.items a.heads.items };

    ghost invariant = { λ a. IsArena a.words.items a.heads.items };
}

/// The place of the word for the literal that the slot watches; that of its link is next.
fn place_of(at: Ref, slot: u8) -> usize
    ensures { result ≡ place_of (at, slot) }
{
    at.offset() as usize + 2 + 2 * slot as usize
}

/// The watch to which a link leads.
fn watch_of(link: u32) -> Option<(Ref, u8)>
    ensures none { link ≡ 0 → result ≡ None }
    ensures some { (at slot : ℕ) → slot < 2 → link ≡ 2 * at + slot + 1 → result ≡ Some (at, slot) }
{
    if link == 0 {
        return None;
    }
    Some((Ref::new((link - 1) / 2), ((link - 1) % 2) as u8))
}

/// Adds the words of a clause.
fn extend(words: &mut Vec<u32>, literals: &[u32]) -> Result<(), Memory>
    requires { length literals.now < 2 ^ 32 }
    ensures ok { OnOk result (words.new.items ≡ words.old.items ++ (length literals.now ∷ 0 ∷ 0 ∷ 0 ∷ 0 ∷ 0 ∷ literals.now)) }
    ensures err { OnErr result (words.new.items ≡ words.old.items) }
{
    let start = words.len();
    words.extend_from_slice(&[literals.len() as u32, 0, 0, 0, 0, 0])?;
    if words.extend_from_slice(literals).is_err() {
        words.truncate(start);
        return Err(Memory);
    }
    Ok(())
}

impl Arena {
    /// An arena without clauses, with the literals of this many variables. `Memory` is also the answer from 2^31 variables on.
    pub fn new(alloc: Global, variables: u32) -> Result<Self, Memory>
        ensures { IfOk result (λ a. a ≡ record { clauses = []; chains = replicate (2 * variables) [] }) }
    {
        if variables >= 0x8000_0000 {
            return Err(Memory);
        }
        Arena::with_literals(alloc, 2 * variables as usize)
    }

    /// An arena without clauses, with this many literals.
    fn with_literals(alloc: Global, literals: usize) -> Result<Self, Memory>
        requires { literals < 2 ^ 32 }
        ensures { IfOk result (λ a. a ≡ record { clauses = []; chains = replicate literals [] }) }
    {
        let heads = vec![in alloc; 0; literals]?;
        Ok(Arena {
            alloc,
            words: Vec::new(alloc),
            heads,
        })
    }

    /// An arena without clauses, with the same literals.
    pub(crate) fn emptied(&self) -> Result<Self, Memory>
        ensures { IfOk result (λ a. a ≡ record { clauses = []; chains = replicate (length self.now.chains) [] }) }
    {
        Arena::with_literals(self.alloc, self.heads.len())
    }

    /// The allocator.
    pub(crate) fn allocator(&self) -> Global {
        self.alloc
    }

    /// How many literals the arena has, two for each variable.
    pub fn literals(&self) -> usize
        ensures value { result ≡ length self.now.chains }
        ensures whole { IsWhole self.now }
    {
        self.heads.len()
    }

    /// The literals of a clause.
    pub fn lits(&self, at: Ref) -> &[u32]
        requires { HasClause self.now at }
        ensures { result.now ≡ literals_of self.now at }
    {
        let start = at.offset() as usize + 6;
        let len = self.words[at.offset() as usize] as usize;
        &self.words[start..start + len]
    }

    /// The literal that a slot, 0 or 1, watches, if any.
    pub fn watched(&self, at: Ref, slot: u8) -> Option<u32>
        requires clause { HasClause self.now at }
        requires slot { slot < 2 }
        ensures none { result ≡ None ↔ WatchesNothing self.now at slot }
        ensures some { (literal : ℕ) → (result ≡ Some literal ↔ Watches self.now at slot literal) }
    {
        let mark = self.words[place_of(at, slot)];
        if mark == 0 { None } else { Some(mark - 1) }
    }

    /// The first watch in the chain of a literal.
    pub fn first_watch(&self, literal: u32) -> Option<(Ref, u8)>
        requires { HasLiteral self.now literal }
        ensures chain { result ≡ slice_get (chain_of self.now literal) 0 }
        ensures within { IfSome result (IsWatch self.now literal) }
    {
        watch_of(self.heads[literal as usize])
    }

    /// The next watch in the chain.
    pub fn next_watch(&self, at: Ref, slot: u8) -> Option<(Ref, u8)>
        requires { (literal : ℕ) × Watches self.now at slot literal }
        ensures chain { (literal : ℕ) (earlier later : List (ℕ × ℕ)) → IsBetween self.now literal earlier (at, slot) later → result ≡ slice_get later 0 }
        ensures within { (literal : ℕ) → Watches self.now at slot literal → IfSome result (IsWatch self.now literal) }
    {
        watch_of(self.words[place_of(at, slot) + 1])
    }

    /// Adds a clause, whose slots watch nothing. `Memory` is also the answer from 2^30 - 6 words in the arena or 2^30 literals on.
    pub fn push(&mut self, literals: &[u32]) -> Result<Ref, Memory>
        ensures ok { IfOk result (λ at. self.new ≡ with_clause self.old (record { at = at; literals = literals.now; is_dropped = false })) }
        ensures free { IfOk result (λ at. (slot : ℕ) → slot < 2 → IsFree self.new at slot) }
        ensures later { IfOk result (λ at. All (λ r. r < at) (references_of self.old)) }
        ensures err { OnErr result (self.new ≡ self.old) }
    {
        let start = self.words.len();
        if literals.len() >= 0x4000_0000 || start >= 0x4000_0000 - 6 {
            return Err(Memory);
        }
        extend(&mut self.words, literals)?;
        Ok(Ref::new(start as u32))
    }

    /// Makes a slot that watches nothing watch a literal, at the head of the literal's chain.
    pub fn watch(&mut self, at: Ref, slot: u8, literal: u32)
        requires clause { HasClause self.old at }
        requires slot { slot < 2 }
        requires free { WatchesNothing self.old at slot }
        requires literal { HasLiteral self.old literal }
        ensures chain { self.new ≡ watched self.old at slot literal }
        ensures watches { (l : ℕ) → (Watches self.new at slot l ↔ (l ≡ literal)) }
        ensures others { (r s l : ℕ) → (r ≡ at → s ≢ slot) → (Watches self.new r s l ↔ Watches self.old r s l) }
    {
        let place = place_of(at, slot);
        let link = self.heads[literal as usize];
        self.words[place] = literal + 1;
        self.words[place + 1] = link;
        self.heads[literal as usize] = 2 * at.offset() + u32::from(slot) + 1;
    }

    /// Takes the first watch out of its chain.
    fn unwatch_first(&mut self, at: Ref, slot: u8)
        requires { (literal : ℕ) × ((later : List (ℕ × ℕ)) × IsBetween self.old literal [] (at, slot) later) }
        ensures chain { (literal : ℕ) (later : List (ℕ × ℕ)) → IsBetween self.old literal [] (at, slot) later → self.new ≡ with_chain self.old literal later }
        ensures free { IsFree self.new at slot }
    {
        let place = place_of(at, slot);
        let literal = self.words[place] - 1;
        self.heads[literal as usize] = self.words[place + 1];
        self.words[place] = 0;
    }

    /// Takes a watch out of its chain, in which `other` is right before it.
    fn unwatch_after(&mut self, other: (Ref, u8), at: Ref, slot: u8)
        requires { (literal : ℕ) × ((earlier : List (ℕ × ℕ)) × ((later : List (ℕ × ℕ)) × IsBetween self.old literal (earlier ++ other ∷ []) (at, slot) later)) }
        ensures chain { (literal : ℕ) (earlier later : List (ℕ × ℕ)) → IsBetween self.old literal (earlier ++ other ∷ []) (at, slot) later → self.new ≡ with_chain self.old literal (earlier ++ other ∷ later) }
        ensures free { IsFree self.new at slot }
    {
        let place = place_of(at, slot);
        let before = place_of(other.0, other.1);
        self.words[before + 1] = self.words[place + 1];
        self.words[place] = 0;
    }

    /// Takes a watch out of its chain, in which `before` is right before it, or none where it is the first.
    fn unwatch(&mut self, before: Option<(Ref, u8)>, at: Ref, slot: u8)
        requires { (literal : ℕ) × ((earlier : List (ℕ × ℕ)) × ((later : List (ℕ × ℕ)) × IsAfter self.old before (at, slot) literal earlier later)) }
        ensures chain { (literal : ℕ) (earlier later : List (ℕ × ℕ)) → IsAfter self.old before (at, slot) literal earlier later → self.new ≡ with_chain self.old literal (earlier ++ later) }
        ensures free { IsFree self.new at slot }
    {
        match before {
            None => self.unwatch_first(at, slot),
            Some(other) => self.unwatch_after(other, at, slot),
        }
    }

    /// Makes a slot watch another literal, at the head of that literal's chain; `before` is the watch
    /// right before it in its present chain, none where it is the first.
    pub fn move_watch(&mut self, before: Option<(Ref, u8)>, at: Ref, slot: u8, literal: u32)
        requires watching { (watches : ℕ) × ((earlier : List (ℕ × ℕ)) × ((later : List (ℕ × ℕ)) × IsAfter self.old before (at, slot) watches earlier later)) }
        requires literal { HasLiteral self.old literal }
        ensures chain { (watches : ℕ) (earlier later : List (ℕ × ℕ)) → IsAfter self.old before (at, slot) watches earlier later → self.new ≡ watched (with_chain self.old watches (earlier ++ later)) at slot literal }
        ensures watches { (l : ℕ) → (Watches self.new at slot l ↔ (l ≡ literal)) }
        ensures others { (r s l : ℕ) → (r ≡ at → s ≢ slot) → (Watches self.new r s l ↔ Watches self.old r s l) }
    {
        self.unwatch(before, at, slot);
        self.watch(at, slot, literal);
    }

    /// Marks a clause as dropped. It keeps its literals and watches until the arena is compacted.
    pub fn drop_clause(&mut self, at: Ref)
        requires { HasClause self.old at }
        ensures { self.new ≡ with_dropped self.old at }
    {
        let place = at.offset() as usize + 1;
        self.words[place] = 1;
    }

    /// Whether a clause is dropped.
    pub fn is_dropped(&self, at: Ref) -> bool
        requires { HasClause self.now at }
        ensures { result ≡ is_dropped_of self.now at }
    {
        self.words[at.offset() as usize + 1] == 1
    }
}
