//! Making a machine, and reading and changing its registers.

ghost use Rattle.std.specs.Prelude.{◌≡◌, ◌<◌, Option};
ghost use Rattle.s390x_operations.specs.Numbers.{modulus};
ghost use Rattle.s390x_operations.specs.Unsigned.{IsPairBelow};
ghost use Rattle.s390x_operations.specs.State.{set_general, set_vector, with_code};
ghost use Rattle.s390x_operations.specs.Effects.{with_low_part, set_sized, set_pair, set_divided};
ghost use Rattle.s390x_machine.specs.State.{registers_of, fresh_registers};

use crate::machine::Machine;
use s390x_operations::{ConditionCode, Pair, Size};

impl Machine {
    /// A machine at a place. All else is zero.
    pub fn new(place: u64) -> Machine
        ensures registers { registers_of result ≡ fresh_registers }
        ensures place { result.place ≡ place }
    {
        Machine {
            regs: [0; 16],
            vregs: [0; 32],
            aregs: [0; 16],
            cc: 0,
            place,
        }
    }

    /// The condition code.
    pub fn condition_code(&self) -> ConditionCode
        ensures { result ≡ (registers_of self.now).code }
    {
        match self.cc {
            0 => ConditionCode::Code0,
            1 => ConditionCode::Code1,
            2 => ConditionCode::Code2,
            _ => ConditionCode::Code3,
        }
    }

    /// The condition code becomes this one.
    pub fn set_condition_code(&mut self, code: ConditionCode)
        ensures registers { registers_of self.new ≡ with_code code (registers_of self.old) }
        ensures place { self.new.place ≡ self.old.place }
    {
        self.cc = match code {
            ConditionCode::Code0 => 0,
            ConditionCode::Code1 => 1,
            ConditionCode::Code2 => 2,
            ConditionCode::Code3 => 3,
        };
    }

    /// A general register gets a value.
    pub fn put(&mut self, target: u8, value: u64)
        requires { target < 16 }
        ensures registers { registers_of self.new
            ≡ set_general (registers_of self.old) target value }
        ensures place { self.new.place ≡ self.old.place }
    {
        self.regs[target as usize] = value;
    }

    /// What a general register holds.
    pub fn general(&self, register: u8) -> u64
        requires { register < 16 }
        ensures { result ≡ (registers_of self.now).general register }
    {
        self.regs[register as usize]
    }

    /// A general register, or its rightmost part, gets a number of the size.
    pub fn put_sized(&mut self, size: Size, target: u8, value: u64)
        requires there { target < 16 }
        requires below { value < modulus size }
        ensures registers { registers_of self.new
            ≡ set_sized size (registers_of self.old) target value }
        ensures place { self.new.place ≡ self.old.place }
    {
        self.regs[target as usize] = with_low_part(size, self.regs[target as usize], value);
    }

    /// What a vector register holds.
    pub fn vector(&self, register: u8) -> u128
        requires { register < 32 }
        ensures { result ≡ (registers_of self.now).vector register }
    {
        self.vregs[register as usize]
    }

    /// A vector register gets a value.
    pub fn put_vector(&mut self, target: u8, value: u128)
        requires { target < 32 }
        ensures registers { registers_of self.new
            ≡ set_vector (registers_of self.old) target value }
        ensures place { self.new.place ≡ self.old.place }
    {
        self.vregs[target as usize] = value;
    }

    /// An even-odd pair gets two numbers of the size.
    pub fn put_pair(&mut self, size: Size, pair: u8, values: Pair)
        requires there { pair < 15 }
        requires high_below { values.high < modulus size }
        requires low_below { values.low < modulus size }
        ensures registers { registers_of self.new
            ≡ set_pair size (registers_of self.old) pair values }
        ensures place { self.new.place ≡ self.old.place }
    {
        self.put_sized(size, pair, values.high);
        self.put_sized(size, pair + 1, values.low);
    }

    /// An even-odd pair gets the result of a division, if there is one.
    pub fn put_divided(&mut self, size: Size, pair: u8, values: Option<Pair>)
        requires there { pair < 15 }
        requires below { IsPairBelow size values }
        ensures registers { registers_of self.new
            ≡ set_divided size (registers_of self.old) pair values }
        ensures place { self.new.place ≡ self.old.place }
    {
        if let Some(values) = values {
            self.put_pair(size, pair, values);
        }
    }
}

/// A part of a register leaves the other bits.
fn with_low_part(size: Size, old: u64, value: u64) -> u64
    requires { value < modulus size }
    ensures { result ≡ with_low_part size old value }
{
    match size {
        Size::Halfword => old / 65536 * 65536 + value,
        Size::Word => old / 4294967296 * 4294967296 + value,
        Size::Doubleword => value,
    }
}
