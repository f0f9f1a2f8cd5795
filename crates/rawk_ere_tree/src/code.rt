//! The instructions of an automaton, and how they are kept.

ghost use Rattle.std.specs.Prelude.{◌≡◌, ◌+◌, ◌<◌, ◌^◌, [], ◌∷◌, ◌++◌, ◌↔◌, IsTrue, IfOk, OnOk, Some, length, map, slice_get};
ghost use Rattle.std.specs.List.{All};
ghost use Rattle.std.specs.Option.{ForSome};
ghost use Rattle.rawk_ere_tree.specs.ByteSets.{IsIn};
ghost use Rattle.rawk_ere_tree.specs.Code.{Takes};
ghost use Rattle.rawk_ere_tree.specs.Kept.{set_of_byte, shown, IsKeptIn, Extends};

use crate::byte_set::{ByteSet, is_in};
use std::alloc::{AllocError, Global};
use std::marker::Model;

/// One instruction. A state of the automaton is the place of an instruction, or the end of the code.
#[derive(Clone, Copy)]
pub enum Instruction {
    /// Reads one byte of the set, and goes on to the next instruction.
    Bytes(ByteSet),
    /// Goes on at the start of the text alone.
    Start,
    /// Goes on at the end of the text alone.
    End,
    /// Goes on to the next instruction, and so far ahead.
    Split(usize),
    /// Goes so far ahead.
    Go(usize),
    /// Goes so far back.
    Back(usize),
    /// Goes on to the next instruction, and so far back.
    Fork(usize),
}

/// The same in 8 bytes, as it is kept.
#[derive(Clone, Copy)]
pub enum Kept {
    /// Reads this byte.
    Byte(u8),
    /// Reads one byte of the set with this number.
    OneOf(u32),
    Start,
    End,
    Split(u32),
    Go(u32),
    Back(u32),
    Fork(u32),
}

/// A list of instructions, which a contract sees as that. It takes 8 bytes for each of them, and 32 for each set of more
/// than one byte, which stands once where it is read by one instruction after another.
#[derive(Drop)]
pub struct Code {
    kept: Vec<Kept>,
    sets: Vec<ByteSet>,
}

/// The instructions.
impl Model for Code {
    ghost use Rattle.std.specs.Prelude.{List, map};
    ghost use Rattle.rawk_ere_tree.specs.declared.code.Instruction.{Instruction};

    ghost Value = { List Instruction };

    ghost use Rattle.std.specs.List.{All};
    ghost use Rattle.rawk_ere_tree.specs.Kept.{shown, IsKeptIn};

    ghost view = { λ c. map (shown c.sets.items) c.kept.items };

    ghost invariant = { λ c. All (IsKeptIn c.sets.items) c.kept.items };
}

/// The set of one byte.
fn of_byte(byte: u8) -> ByteSet
    ensures { result ≡ set_of_byte byte }
{
    let word = 1u64 << (byte % 64);
    match byte / 64 {
        0 => [word, 0, 0, 0],
        1 => [0, word, 0, 0],
        2 => [0, 0, word, 0],
        _ => [0, 0, 0, word],
    }
}

/// The byte of a set that has one alone.
fn only(set: &ByteSet) -> Option<u8>
    ensures { ForSome result (λ b. set.now ≡ set_of_byte b) }
{
    for index in 0..4usize {
        let word = set[index];
        if word != 0 {
            let byte = ((index as u32 * 64 + word.trailing_zeros()) % 256) as u8;
            return if *set == of_byte(byte) {
                Some(byte)
            } else {
                None
            };
        }
    }
    None
}

/// A number in 32 bits. No code is so long that it has none, but that is not proved, so it counts as want of memory.
fn short(number: usize) -> Result<u32, AllocError>
    ensures { IfOk result (λ n. n ≡ number) }
{
    if number > u32::MAX as usize {
        return Err(AllocError);
    }
    Ok(number as u32)
}

/// The number of the set, which is added unless it is the last one.
fn number_of(sets: &mut Vec<ByteSet>, set: &ByteSet) -> Result<u32, AllocError>
    ensures grows { Extends sets.old.items sets.new.items }
    ensures number { IfOk result (λ n. slice_get sets.new.items n ≡ Some set.now) }
{
    let count = sets.len();
    if count > 0 && sets[count - 1] == *set {
        let number = short(count - 1)?;
        return Ok(number);
    }
    let number = short(count)?;
    sets.push(*set)?;
    Ok(number)
}

/// The instruction that reads a byte of the set, as it is kept.
fn keep_set(sets: &mut Vec<ByteSet>, set: &ByteSet) -> Result<Kept, AllocError>
    ensures grows { Extends sets.old.items sets.new.items }
    ensures within { IfOk result (IsKeptIn sets.new.items) }
    ensures shown { IfOk result (λ k. shown sets.new.items k ≡ Instruction.Bytes set.now) }
{
    if let Some(byte) = only(set) {
        return Ok(Kept::Byte(byte));
    }
    let number = number_of(sets, set)?;
    Ok(Kept::OneOf(number))
}

/// The instruction as it is kept.
fn keep(sets: &mut Vec<ByteSet>, instruction: &Instruction) -> Result<Kept, AllocError>
    ensures grows { Extends sets.old.items sets.new.items }
    ensures within { IfOk result (IsKeptIn sets.new.items) }
    ensures shown { IfOk result (λ k. shown sets.new.items k ≡ instruction.now) }
{
    match instruction {
        Instruction::Bytes(set) => keep_set(sets, set),
        Instruction::Start => Ok(Kept::Start),
        Instruction::End => Ok(Kept::End),
        Instruction::Split(by) => Ok(Kept::Split(short(*by)?)),
        Instruction::Go(by) => Ok(Kept::Go(short(*by)?)),
        Instruction::Back(by) => Ok(Kept::Back(short(*by)?)),
        Instruction::Fork(by) => Ok(Kept::Fork(short(*by)?)),
    }
}

/// An instruction that is kept with other sets.
fn keep_again(sets: &mut Vec<ByteSet>, others: &[ByteSet], kept: Kept) -> Result<Kept, AllocError>
    requires { IsKeptIn others.now kept }
    ensures grows { Extends sets.old.items sets.new.items }
    ensures within { IfOk result (IsKeptIn sets.new.items) }
    ensures shown { IfOk result (λ k. shown sets.new.items k ≡ shown others.now kept) }
{
    match kept {
        Kept::OneOf(number) => {
            let number = number_of(sets, &others[number as usize])?;
            Ok(Kept::OneOf(number))
        }
        same => Ok(same),
    }
}

/// The instruction that is kept.
fn show(sets: &[ByteSet], kept: Kept) -> Instruction
    requires { IsKeptIn sets.now kept }
    ensures { result ≡ shown sets.now kept }
{
    match kept {
        Kept::Byte(byte) => Instruction::Bytes(of_byte(byte)),
        Kept::OneOf(number) => Instruction::Bytes(sets[number as usize]),
        Kept::Start => Instruction::Start,
        Kept::End => Instruction::End,
        Kept::Split(by) => Instruction::Split(by as usize),
        Kept::Go(by) => Instruction::Go(by as usize),
        Kept::Back(by) => Instruction::Back(by as usize),
        Kept::Fork(by) => Instruction::Fork(by as usize),
    }
}

/// Whether the byte is in the set of the other.
fn is_same(byte: u8, other: u8) -> bool
    ensures { IsTrue result ↔ IsIn byte (set_of_byte other) }
{
    byte == other
}

/// Whether the instruction that is kept reads the byte.
fn is_read(sets: &[ByteSet], kept: Kept, byte: u8) -> bool
    requires { IsKeptIn sets.now kept }
    ensures { IsTrue result ↔ Takes (shown sets.now kept) byte }
{
    match kept {
        Kept::Byte(only) => is_same(byte, only),
        Kept::OneOf(number) => is_in(byte, &sets[number as usize]),
        _ => false,
    }
}

impl Code {
    /// No instruction.
    pub fn new(alloc: Global) -> Code
        ensures { result ≡ [] }
    {
        Code {
            kept: Vec::new(alloc),
            sets: Vec::new(alloc),
        }
    }

    /// How many instructions there are.
    pub fn len(&self) -> usize
        ensures value { result ≡ length self.now }
        ensures short { result < 2 ^ 63 }
    {
        self.kept.len()
    }

    /// The instruction at a place.
    pub fn at(&self, index: usize) -> Instruction
        requires { index < length self.now }
        ensures { slice_get self.now index ≡ Some result }
    {
        show(&self.sets, self.kept[index])
    }

    /// Whether the instruction at a place reads the byte.
    pub fn reads(&self, index: usize, byte: u8) -> bool
        requires { index < length self.now }
        ensures { IsTrue result ↔ (x : Instruction) × (slice_get self.now index ≡ Some x) × Takes x byte }
    {
        is_read(&self.sets, self.kept[index], byte)
    }

    /// One more instruction.
    pub fn push(&mut self, instruction: &Instruction) -> Result<(), AllocError>
        ensures { OnOk result (self.new ≡ self.old ++ instruction.now ∷ []) }
    {
        let kept = keep(&mut self.sets, instruction)?;
        self.kept.push(kept)?;
        Ok(())
    }

    /// One more instruction, that of other code.
    fn push_from(&mut self, other: &Code, index: usize) -> Result<(), AllocError>
        requires { index < length other.now }
        ensures { OnOk result ((x : Instruction) × (slice_get other.now index ≡ Some x) × (self.new ≡ self.old ++ x ∷ [])) }
    {
        let kept = keep_again(&mut self.sets, &other.sets, other.kept[index])?;
        self.kept.push(kept)?;
        Ok(())
    }

    /// The instructions of other code, after these.
    pub fn extend(&mut self, other: &Code) -> Result<(), AllocError>
        ensures { OnOk result (self.new ≡ self.old ++ other.now) }
    {
        for index in 0..other.len() {
            self.push_from(other, index)?;
        }
        Ok(())
    }

    /// Gives back the memory that was taken for more.
    pub fn shrink(&mut self)
        ensures { self.new ≡ self.old }
    {
        self.kept.shrink_to_fit();
        self.sets.shrink_to_fit();
    }
}
