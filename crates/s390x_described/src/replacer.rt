//! One who gives an instruction other registers.
ghost use Rattle.std.specs.Prelude.{◌≡◌};
ghost use Rattle.s390x_described.specs.Roles.{Role, Written, Tied, Read, WrittenPair, LowRead, ReadPair, InMemory, register, written_pair, read_pair, place};

use s390x_base::{Reg, RegPair, Writable, WritableRegPair};
use s390x_inst::MemArg;

/// One who gives an instruction other registers, one role after another.
pub trait Replacer {
    // What they depend on.
    ghost State: { Type 0 };

    ghost state: { Self → State };

    // What stands in a role instead, and what later ones depend on.
    ghost role_at: { Role → State → Role × State };

    /// In place of a register that is written.
    fn output(&mut self, reg: Writable<Reg>) -> Writable<Reg>
        ensures value { result ≡ register (role_at (Written reg) (state self.old)).0 }
        ensures after { state self.new ≡ (role_at (Written reg) (state self.old)).1 };

    /// In place of a register that is written and has to be that of the input `ri`.
    fn tied_output(&mut self, reg: Writable<Reg>) -> Writable<Reg>
        ensures value { result ≡ register (role_at (Tied reg) (state self.old)).0 }
        ensures after { state self.new ≡ (role_at (Tied reg) (state self.old)).1 };

    /// In place of a register that is read.
    fn input(&mut self, reg: Reg) -> Reg
        ensures value { result ≡ register (role_at (Read reg) (state self.old)).0 }
        ensures after { state self.new ≡ (role_at (Read reg) (state self.old)).1 };

    /// In place of a pair that is written.
    fn output_pair(&mut self, pair: WritableRegPair) -> WritableRegPair
        ensures value { result ≡ written_pair (role_at (WrittenPair pair) (state self.old)).0 }
        ensures after { state self.new ≡ (role_at (WrittenPair pair) (state self.old)).1 };

    /// In place of an input that has to be the low half of the pair that is written.
    fn low_input(&mut self, reg: Reg) -> Reg
        ensures value { result ≡ register (role_at (LowRead reg) (state self.old)).0 }
        ensures after { state self.new ≡ (role_at (LowRead reg) (state self.old)).1 };

    /// In place of an input that has to be the pair that is written.
    fn input_pair(&mut self, pair: RegPair) -> RegPair
        ensures value { result ≡ read_pair (role_at (ReadPair pair) (state self.old)).0 }
        ensures after { state self.new ≡ (role_at (ReadPair pair) (state self.old)).1 };

    /// In place of a place in memory.
    fn memory(&mut self, mem: MemArg) -> MemArg
        ensures value { result ≡ place (role_at (InMemory mem) (state self.old)).0 }
        ensures after { state self.new ≡ (role_at (InMemory mem) (state self.old)).1 };
}
