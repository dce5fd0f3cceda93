//! What an instruction that looks at registers and flags alone does to any file of registers: windows, the machine and `fingerprints` share it.
ghost use Rattle.std.specs.Prelude.{◌≡◌, ℕ, ◌<◌, ◌≤◌, true, false};
ghost use Rattle.word_bits.specs.Word.{shift_of};
ghost use Rattle.thumb_instr.specs.Window.{named, AreBelow};
ghost use Rattle.thumb_model.specs.Effect.{assigned, written_to, c_flag, result_outputs, shift_outputs, sum_outputs, three_sum, right_shift, extension_of, reversal_of, two_outputs, byte_outputs, after};
ghost use Rattle.window_exec.specs.Computes.{computes};

use crate::register_file::RegisterFile;
use crate::words::Word;
use thumb_instr::{ByteOperation, Extension, Instr, Operation, Reversal, Right, SumOperation};
use word_bits::Shift;

/// What a register holds after a word was written to it: the two low bits of sp, which is register 13, stay zero.
#[inline(always)]
pub fn written<W: Word>(register: u32, word: W) -> W
    ensures { (i : ℕ) → W.number result i ≡ written_to register (W.number word i) }
{
    if register == 13 { word.aligned() } else { word }
}

/// Whether an instruction looks at the registers that it names and at flags alone, and goes on.
pub fn computes(instr: &Instr) -> bool
    ensures { result ≡ computes instr.now }
{
    match instr {
        Instr::Mov { .. } => true,
        Instr::Three { .. } => true,
        Instr::Two { .. } => true,
        Instr::Movs { .. } => true,
        Instr::ShiftLeft { .. } => true,
        Instr::ShiftRight { .. } => true,
        Instr::ThreeNumber { .. } => true,
        Instr::TwoNumber { .. } => true,
        Instr::Add { .. } => true,
        Instr::Compare { .. } => true,
        Instr::Extend { .. } => true,
        Instr::Reverse { .. } => true,
        _ => false,
    }
}

/// Does an instruction that looks only at flags and at the registers which it names, and goes on, in each state. The file must have these registers.
#[inline(always)]
pub fn compute<F: RegisterFile>(file: &mut F, instr: &Instr)
    requires computes { computes instr.now ≡ true }
    requires registers { AreBelow F.count (named instr.now) }
    ensures { (i : ℕ) → F.values file.new i ≡ after instr.now (F.values file.old i) }
{
    match *instr {
        Instr::Mov { target, source } => {
            let word = file.register(source.number);
            file.set_register(target.number, written(target.number, word));
        }
        Instr::Three {
            sum,
            target,
            left,
            right,
        } => {
            let x = file.register(left.number);
            let y = file.register(right.number);
            set_sum(file, target.number, three(sum, x, y));
        }
        Instr::Two {
            operation,
            target,
            other,
        } => {
            let x = file.register(target.number);
            let y = file.register(other.number);
            two(file, operation, target.number, x, y);
        }
        Instr::Movs { target, source } => {
            let x = file.register(source.number);
            set_result(file, target.number, x);
        }
        Instr::ShiftLeft {
            target,
            source,
            amount,
        } => {
            let x = file.register(source.number);
            set_shift(file, target.number, x.lsl(amount.number));
        }
        Instr::ShiftRight {
            shift,
            target,
            source,
            amount,
        } => {
            let x = file.register(source.number);
            set_shift(file, target.number, right(shift, x, amount.number));
        }
        Instr::ThreeNumber {
            sum,
            target,
            source,
            number,
        } => {
            let x = file.register(source.number);
            let y = F::Value::same(number.number);
            set_sum(file, target.number, three(sum, x, y));
        }
        Instr::TwoNumber {
            operation,
            target,
            number,
        } => {
            let x = file.register(target.number);
            let y = F::Value::same(number.number);
            byte(file, operation, target.number, x, y);
        }
        Instr::Add { registers } => {
            let x = file.register(registers.target.number);
            let y = file.register(registers.source.number);
            let word = total(SumOperation::Add, x, y);
            file.set_register(
                registers.target.number,
                written(registers.target.number, word),
            );
        }
        Instr::Compare { registers } => {
            let x = file.register(registers.left.number);
            let y = file.register(registers.right.number);
            file.set_sum_flags(three(SumOperation::Sub, x, y));
        }
        Instr::Extend {
            extension,
            target,
            source,
        } => {
            let x = file.register(source.number);
            file.set_register(target.number, extended(extension, x));
        }
        Instr::Reverse {
            reversal,
            target,
            source,
        } => {
            let x = file.register(source.number);
            file.set_register(target.number, reversed(reversal, x));
        }
        _ => unreachable!(),
    }
}

/// Puts a result into a register, and sets N and Z by it.
#[inline(always)]
fn set_result<F: RegisterFile>(file: &mut F, target: u32, value: F::Value)
    requires { target < F.count }
    ensures { (i : ℕ) → F.values file.new i ≡ assigned (result_outputs target (F.Value.number value i)) (F.values file.old i) }
{
    file.set_result_flags(value);
    file.set_register(target, value);
}

/// Puts the value of a shift into a register, sets N and Z by it, and C to the last bit that was shifted out.
#[inline(always)]
fn set_shift<F: RegisterFile>(file: &mut F, target: u32, moved: <F::Value as Word>::Moved)
    requires { target < F.count }
    ensures { (i : ℕ) → F.values file.new i ≡ assigned (shift_outputs target (F.Value.moved_in moved i)) (F.values file.old i) }
{
    file.set_shift_flags(moved);
    file.set_register(target, F::Value::moved_value(moved));
}

/// Puts a sum into a register, and sets all flags by it.
#[inline(always)]
fn set_sum<F: RegisterFile>(file: &mut F, target: u32, sum: <F::Value as Word>::Sum)
    requires { target < F.count }
    ensures { (i : ℕ) → F.values file.new i ≡ assigned (sum_outputs target (F.Value.sum_in sum i)) (F.values file.old i) }
{
    file.set_sum_flags(sum);
    file.set_register(target, F::Value::sum_value(sum));
}

/// A sum or a difference of two values.
#[inline(always)]
fn three<W: Word>(sum: SumOperation, x: W, y: W) -> W::Sum
    ensures { (i : ℕ) → W.sum_in result i ≡ three_sum sum (W.number x i) (W.number y i) }
{
    match sum {
        SumOperation::Add => x.add_with_carry(y, W::flag(false)),
        SumOperation::Sub => x.add_with_carry(y.not(), W::flag(true)),
    }
}

/// The low 32 bits of a sum or a difference.
#[inline(always)]
pub fn total<W: Word>(sum: SumOperation, x: W, y: W) -> W
    ensures { (i : ℕ) → W.number result i ≡ (three_sum sum (W.number x i) (W.number y i)).value }
{
    W::sum_value(three(sum, x, y))
}

/// A shift right of a value by an amount that isn't 0.
#[inline(always)]
fn right<W: Word>(shift: Right, x: W, amount: u32) -> W::Moved
    requires some { 1 ≤ amount }
    requires most { amount ≤ 32 }
    ensures { (i : ℕ) → W.moved_in result i ≡ shift_of (right_shift shift) (W.number x i) amount false }
{
    match shift {
        Right::Lsr => x.lsr(amount),
        Right::Asr => x.asr(amount),
    }
}

/// A byte or a halfword, extended to a word.
#[inline(always)]
fn extended<W: Word>(extension: Extension, x: W) -> W
    ensures { (i : ℕ) → W.number result i ≡ extension_of extension (W.number x i) }
{
    match extension {
        Extension::Sxth => x.sign_extend(16),
        Extension::Sxtb => x.sign_extend(8),
        Extension::Uxth => x.low_half(),
        Extension::Uxtb => x.low_byte(),
    }
}

/// The bytes in another order.
#[inline(always)]
fn reversed<W: Word>(reversal: Reversal, x: W) -> W
    ensures { (i : ℕ) → W.number result i ≡ reversal_of reversal (W.number x i) }
{
    match reversal {
        Reversal::Rev => x.rev(),
        Reversal::Rev16 => x.rev16(),
        Reversal::Revsh => x.revsh(),
    }
}

/// An operation on the values `x` of its target and `y` of the other register.
#[inline(always)]
fn two<F: RegisterFile>(file: &mut F, operation: Operation, target: u32, x: F::Value, y: F::Value)
    requires { target < F.count }
    ensures { (i : ℕ) → F.values file.new i ≡ assigned (two_outputs operation target (F.Value.number x i) (F.Value.number y i) (F.values file.old i c_flag)) (F.values file.old i) }
{
    let c = file.carry();
    match operation {
        Operation::And => set_result(file, target, x.and(y)),
        Operation::Eor => set_result(file, target, x.xor(y)),
        Operation::Lsl => set_shift(file, target, x.shift(Shift::Lsl, y.low_byte(), c)),
        Operation::Lsr => set_shift(file, target, x.shift(Shift::Lsr, y.low_byte(), c)),
        Operation::Asr => set_shift(file, target, x.shift(Shift::Asr, y.low_byte(), c)),
        Operation::Adc => set_sum(file, target, x.add_with_carry(y, c)),
        Operation::Sbc => set_sum(file, target, x.add_with_carry(y.not(), c)),
        Operation::Ror => set_shift(file, target, x.shift(Shift::Ror, y.low_byte(), c)),
        Operation::Tst => file.set_result_flags(x.and(y)),
        Operation::Rsb => {
            let sum = y
                .not()
                .add_with_carry(F::Value::same(0), F::Value::flag(true));
            set_sum(file, target, sum);
        }
        Operation::Cmp => file.set_sum_flags(three(SumOperation::Sub, x, y)),
        Operation::Cmn => file.set_sum_flags(three(SumOperation::Add, x, y)),
        Operation::Orr => set_result(file, target, x.or(y)),
        Operation::Mul => set_result(file, target, y.multiplied(x)),
        Operation::Bic => set_result(file, target, x.and(y.not())),
        Operation::Mvn => set_result(file, target, y.not()),
    }
}

/// An operation on the value `x` of its target and a number.
#[inline(always)]
fn byte<F: RegisterFile>(
    file: &mut F,
    operation: ByteOperation,
    target: u32,
    x: F::Value,
    number: F::Value,
)
    requires { target < F.count }
    ensures { (i : ℕ) → F.values file.new i ≡ assigned (byte_outputs operation target (F.Value.number x i) (F.Value.number number i)) (F.values file.old i) }
{
    match operation {
        ByteOperation::Mov => set_result(file, target, number),
        ByteOperation::Cmp => file.set_sum_flags(three(SumOperation::Sub, x, number)),
        ByteOperation::Add => set_sum(file, target, three(SumOperation::Add, x, number)),
        ByteOperation::Sub => set_sum(file, target, three(SumOperation::Sub, x, number)),
    }
}
