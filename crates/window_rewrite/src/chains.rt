//! The rules of a table by hashes: entries by those of their left sides, families by those of left sides with 0 for 8-bit numbers. For n rules there are
//! 4 n + 1 chains, and a rule is in the chain of its hash modulo 4 n + 1.
ghost use Rattle.std.specs.Prelude.{◌≡◌, ◌+◌, ◌<◌, ◌%◌, length, slice_get, true, Some, IfOk};
ghost use Rattle.window_rewrite.specs.Rules.{is_marked, AreChains};

use listing_parser::Memory;
use std::alloc::Global;

/// The rules that are kept, by their hashes. Two of them are seldom in one chain.
#[derive(Drop)]
pub(crate) struct Chains {
    /// Whether a rule is kept.
    kept: Vec<bool>,
    /// For each chain its first rule, and for each rule that is kept the next one in its chain.
    firsts: Vec<Option<usize>>,
    nexts: Vec<Option<usize>>,
}

impl Chains {
    /// The chains of the kept rules, where `forms` has the hash of each rule.
    pub(crate) fn of(alloc: Global, kept: Vec<bool>, forms: &[usize]) -> Result<Chains, Memory>
        requires { length kept.items ≡ length forms.now }
        ensures chains { IfOk result (λ chains. AreChains forms.now 0 chains) }
        ensures kept { IfOk result (λ chains. chains.kept ≡ kept) }
    {
        let mut chains = Chains {
            kept,
            firsts: vec![in alloc; None; 4 * forms.len() + 1]?,
            nexts: vec![in alloc; None; forms.len()]?,
        };
        let mut number = forms.len();
        while number > 0 {
            number -= 1;
            if chains.kept[number] {
                chains.add(forms, number);
            }
        }
        Ok(chains)
    }

    /// Puts a kept rule at the head of its chain. The kept rules after it in the table are in their chains already.
    fn add(&mut self, forms: &[usize], number: usize)
        requires number { number < length forms.now }
        requires kept { is_marked self.old.kept.items number ≡ true }
        requires chains { AreChains forms.now (number + 1) self.old }
        ensures chains { AreChains forms.now number self.new }
        ensures kept { self.new.kept ≡ self.old.kept }
    {
        let chain = forms[number] % self.firsts.len();
        let next = self.firsts[chain];
        self.nexts[number] = next;
        self.firsts[chain] = Some(number);
    }

    /// The first rule that is kept in the chain of this hash.
    pub(crate) fn first(&self, form: usize) -> Option<usize>
        requires { 0 < length self.now.firsts.items }
        ensures { slice_get self.now.firsts.items (form % length self.now.firsts.items) ≡ Some result }
    {
        self.firsts[form % self.firsts.len()]
    }

    /// The next rule that is kept in the chain of this one, which is kept.
    pub(crate) fn next(&self, number: usize) -> Option<usize>
        requires { number < length self.now.nexts.items }
        ensures { slice_get self.now.nexts.items number ≡ Some result }
    {
        self.nexts[number]
    }
}
