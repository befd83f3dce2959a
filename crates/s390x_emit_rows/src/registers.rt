//! Which registers may stand in an instruction.
ghost use Rattle.std.specs.Prelude.{◌≡◌, ◌&&◌, nat_eq};
ghost use Rattle.s390x_base.specs.Regs.{number_of};
ghost use Rattle.s390x_enc.specs.Operands.{is_general_class};
ghost use Rattle.s390x_typed_steps.specs.General.{is_general, is_access, is_even_pair, reuses, reuses_pair};

use s390x_address::{general, number};
use s390x_base::{Reg, RegPair, WritableRegPair, valid_regpair};

/// A register's number is below the count of its class, so that its class alone tells whether it is general.
pub fn reveal_number_range(r: &Reg)
    ensures { is_general r.now ≡ is_general_class r.now }
{
    if let Reg::Real(preg) = r {
        let _number = preg.hw_enc();
    }
}

/// Whether two registers have the same number.
pub fn same_number(a: &Reg, b: &Reg) -> bool
    ensures { result ≡ nat_eq (number_of a.now) (number_of b.now) }
{
    number(a) == number(b)
}

/// Whether an input that has to be the output is it: both are general, with the same number.
pub fn is_reused(output: &Reg, input: &Reg) -> bool
    ensures { result ≡ reuses output.now input.now }
{
    general(output) && general(input) && same_number(output, input)
}

/// Whether a pair of inputs that has to be that of the outputs is it.
pub fn is_reused_pair(output: &WritableRegPair, input: &RegPair) -> bool
    ensures { result ≡ reuses_pair output.now input.now }
{
    is_reused(&output.hi.to_reg(), &input.hi) && is_reused(&output.lo.to_reg(), &input.lo)
}

/// Whether both registers are general.
pub fn two_general(a: &Reg, b: &Reg) -> bool
    ensures { result ≡ is_general a.now && is_general b.now }
{
    general(a) && general(b)
}

/// Whether all three registers are general.
pub fn three_general(a: &Reg, b: &Reg, c: &Reg) -> bool
    ensures { result ≡ is_general a.now && is_general b.now && is_general c.now }
{
    general(a) && general(b) && general(c)
}

/// Whether the pair is an even register and the next one.
pub fn is_even_pair(pair: &WritableRegPair) -> bool
    ensures { result ≡ is_even_pair pair.now.hi pair.now.lo }
{
    let high = pair.hi.to_reg();
    let low = pair.lo.to_reg();
    general(&high) && general(&low) && valid_regpair(high, low)
}

/// Whether it is the number of an access register.
pub fn is_access(ar: u8) -> bool
    ensures { result ≡ is_access ar }
{
    ar < 16
}
