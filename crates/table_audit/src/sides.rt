//! Whether an entry's sides are canonical and within the header's limits, and the formula that they differ, which its proof refutes.
ghost use Rattle.std.specs.Prelude.{◌≡◌, ◌+◌, ◌<◌, ◌≤◌, ◌↔◌, true, IfOk, IfSome, IsTrue, MatchOption, length, min};
ghost use Rattle.std.specs.List.{list_all};
ghost use Rattle.thumb_instr.specs.Window.{is_in_window, named, named_by};
ghost use Rattle.thumb_model.specs.Effect.{AreOver, above, register_count};
ghost use Rattle.seq_enum.specs.Alphabet.{numbers_from, IsOver};
ghost use Rattle.seq_enum.specs.Costs.{weight_under};
ghost use Rattle.bit_blast.specs.Exactness.{IsMaskOver};
ghost use Rattle.rule_table.specs.Canonical.{firsts, numbers_of, appearing};
ghost use Rattle.rule_table.specs.Views.{header_in, rule_of, table_of};
ghost use Rattle.table_audit.specs.Shorter.{named_count, alphabet_registers, SidesFit, formula_against, formula_of};
ghost use Rattle.table_audit.specs.Canonical.{HasFormula};
ghost use Rattle.table_audit.specs.Orders.{IsAstray, IsInOrder, AreWithin};

use bit_blast::formula;
use cnf_gates::{Formula, Memory};
use rule_table::{Entry, Table, are_windows};
use seq_enum::{Costs, Pool, number_of, weight};
use std::alloc::Global;
use thumb_instr::{Instr, Low, Mask, Role, Seq, parts, registers_of, roles};

/// How many registers were seen after a list, where r0 to r(count - 1) were seen before it and each new one is the next in order; else None.
fn ordered(registers: &[Low], count: u32) -> Option<u32>
    requires { count + length registers.now < 100 }
    ensures few { IfSome result (λ n. n ≤ count + length registers.now) }
    ensures value { MatchOption result (IsAstray (firsts (numbers_from 0 count) (numbers_of registers.now))) (λ n. firsts (numbers_from 0 count) (numbers_of registers.now) ≡ numbers_from 0 n) }
{
    let mut seen = count;
    for register in registers {
        if register.number > seen {
            return None;
        }
        if register.number == seen {
            seen += 1;
        }
    }
    Some(seen)
}

/// How many registers the instructions of a window name, where these are r0, r1 and so on by first appearance; else None.
fn ordered_names(instrs: &[Instr]) -> Option<u32>
    requires windows { list_all is_in_window instrs.now ≡ true }
    requires few { length instrs.now ≤ 5 }
    ensures value { MatchOption result (IsAstray (appearing instrs.now)) (λ n. appearing instrs.now ≡ numbers_from 0 n) }
{
    let mut count = 0;
    for instr in instrs {
        match ordered(&registers_of(instr), count) {
            None => return None,
            Some(more) => count = more,
        }
    }
    Some(count)
}

/// How many registers a side names, where there are instructions, each may stand in a window, and their registers, at most four, are r0, r1
/// and so on by first appearance.
fn names_in_order(side: &Seq) -> Option<u8>
    ensures value { MatchOption result (IsInOrder side.now → ⊥) (λ k. IsInOrder side.now × (k ≡ named_count side.now)) }
    ensures some { IfSome result (λ k. 0 < k) }
    ensures few { IfSome result (λ k. k ≤ 4) }
    ensures short { length side.now ≤ 5 }
{
    let instrs = side.as_slice();
    if instrs.is_empty() || !are_windows(instrs) {
        return None;
    }
    match ordered_names(instrs) {
        Some(count) if count <= 4 => Some(count as u8),
        _ => None,
    }
}

/// Whether each instruction of a sequence is one of the alphabet of the first `k` registers and a pool.
fn is_over(k: u8, pool: &Pool, seq: &Seq) -> bool
    requires some { 0 < k }
    requires few { k ≤ 4 }
    requires short { length seq.now ≤ 5 }
    ensures { IsTrue result ↔ IsOver k pool.now seq.now }
{
    number_of(k, pool, seq).is_some()
}

/// Whether a mask has no register of `k` or above.
fn is_mask_over(k: u8, mask: Mask) -> bool
    ensures { IsTrue result ↔ IsMaskOver k mask.items.bits }
{
    for register in k..4 {
        if mask.has(register) {
            return false;
        }
    }
    true
}

/// Whether the right side neither has more instructions than the left side nor weighs more.
fn is_no_dearer(costs: &Option<Costs>, entry: &Entry) -> bool
    ensures { IsTrue result ↔ ((length (rule_of entry.now).right ≤ length (rule_of entry.now).left) × (weight_under costs.now (rule_of entry.now).right ≤ weight_under costs.now (rule_of entry.now).left)) }
{
    entry.right.len() <= entry.left.len()
        && weight(costs, &entry.right) <= weight(costs, &entry.left)
}

/// Whether left side and mask are over the first `k` registers, and the right side is over the first `registers`.
fn are_over(pool: &Pool, entry: &Entry, k: u8, registers: u8) -> bool
    requires some { (0 < k) × (0 < registers) }
    requires few { (k ≤ 4) × (registers ≤ 4) }
    requires short { (length (rule_of entry.now).left ≤ 5) × (length (rule_of entry.now).right ≤ 5) }
    ensures { IsTrue result ↔ (IsOver k pool.now (rule_of entry.now).left × IsOver registers pool.now (rule_of entry.now).right × IsMaskOver k (rule_of entry.now).mask) }
{
    is_over(k, pool, &entry.left)
        && is_over(registers, pool, &entry.right)
        && is_mask_over(k, entry.mask)
}

/// Whether left side and mask are over the first `k` registers, the right side is over the first `registers`, all are within the header's
/// limits, and the right side neither has more instructions than the left side nor weighs more.
fn are_within(table: &Table, entry: &Entry, k: u8, registers: u8) -> bool
    requires some { (0 < k) × (0 < registers) }
    requires few { (k ≤ 4) × (registers ≤ 4) }
    ensures { IsTrue result ↔ AreWithin (table_of table.now) (rule_of entry.now) k registers }
{
    entry.left.len() <= usize::from(table.left)
        && k <= table.regs
        && is_no_dearer(&table.costs, entry)
        && are_over(&table.pool, entry, k, registers)
}

/// Whether the sides and the mask of an entry are what the table's header allows.
pub fn sides_fit(table: &Table, entry: &Entry) -> bool
    ensures fit { IsTrue result ↔ SidesFit (table_of table.now) (rule_of entry.now) }
    ensures formula { IsTrue result → HasFormula (header_in table.now) (rule_of entry.now) }
{
    match names_in_order(&entry.left) {
        None => false,
        Some(k) => are_within(table, entry, k, with_scratch(k, table.scratch)),
    }
}

/// The least number above an operand's register, or 0 where its role isn't a register.
fn above_by(role: Role, number: u32) -> u64
    ensures { result ≡ above (named_by role number) }
{
    match role {
        Role::Register(_, _) => u64::from(number) + 1,
        _ => 0,
    }
}

/// The least number above all registers that an instruction names.
fn above_named(instr: &Instr) -> u64
    ensures { result ≡ above (named instr.now) }
{
    let parts = parts(instr);
    let roles = roles(parts.kind);
    let first = above_by(roles.first, parts.first);
    let second = above_by(roles.second, parts.second);
    let third = above_by(roles.third, parts.third);
    first.max(second.max(third))
}

/// How many registers instructions are over: the least number above all that they name. A side whose registers are r0, r1 and so on names just that many.
pub fn register_count(instrs: &[Instr]) -> u64
    ensures { result ≡ register_count instrs.now }
{
    match instrs {
        [] => 0,
        [first, rest @ ..] => above_named(first).max(register_count(rest)),
    }
}

/// How many registers a side names, where they are r0, r1 and so on by first appearance.
#[tactic(auto, using(crate::proofs::Names::count_in_order))]
pub fn named_count(side: &Seq) -> u8
    requires { IsInOrder side.now }
    ensures value { result ≡ named_count side.now }
    ensures some { 0 < result }
    ensures few { result ≤ 4 }
{
    register_count(side.as_slice()) as u8
}

/// This number of registers, plus the scratch register where the header allows one (`scratch` is 0 or 1), but at most four.
pub fn with_scratch(registers: u8, scratch: u8) -> u8
    ensures { result ≡ min (registers + scratch) 4 }
{
    let registers = u16::from(registers) + u16::from(scratch);
    registers.min(4) as u8
}

/// How many registers the alphabet of an entry has: those that its left side names, and the scratch register.
pub fn alphabet_registers(table: &Table, entry: &Entry) -> u8
    requires { IsInOrder entry.now.left }
    ensures value { result ≡ alphabet_registers (header_in table.now) entry.now.left }
    ensures some { 0 < result }
    ensures few { result ≤ 4 }
{
    with_scratch(named_count(&entry.left), table.scratch)
}

/// The formula that the left side of an entry and a sequence differ in some item of the mask, over the registers of the entry's alphabet.
#[tactic(auto, using(crate::proofs::Fitting::ordered_of))]
pub(crate) fn formula_against(
    alloc: Global,
    table: &Table,
    entry: &Entry,
    seq: &Seq,
) -> Result<Formula, Memory>
    requires entry { HasFormula (header_in table.now) (rule_of entry.now) }
    requires seq { AreOver (alphabet_registers (header_in table.now) entry.now.left) seq.now }
    ensures { IfOk result (λ f. f ≡ formula_against (header_in table.now) (rule_of entry.now) seq.now) }
{
    let registers = alphabet_registers(table, entry);
    formula(alloc, &entry.left, seq, entry.mask, registers)
}

/// The formula that the sides of an entry differ, which fit the table. The entry's proof refutes this formula, and its DIMACS
/// text is what an independent checker is given.
pub fn entry_formula(alloc: Global, table: &Table, entry: &Entry) -> Result<Formula, Memory>
    requires { HasFormula (header_in table.now) (rule_of entry.now) }
    ensures { IfOk result (λ f. f ≡ formula_of (header_in table.now) (rule_of entry.now)) }
{
    formula_against(alloc, table, entry, &entry.right)
}
