//! Immediates.
ghost use Rattle.std.specs.Prelude.{◌≡◌, ℕ, ◌+◌, ◌-◌, ◌*◌, ◌/◌, ◌%◌, ◌^◌, ◌<◌, ◌≤◌, ◌↔◌, ◌≤ℤ◌, pos, negsuc, IsSome, IfSome, MatchOption};
ghost use Rattle.s390x_base.specs.Immediates.{field20};

use std::marker::Model;

/// An unsigned displacement of 12 bits, 0 to 4095. Contracts see it as its number.
#[derive(Clone, Copy, PartialEq, Eq, Debug)]
pub struct UImm12 {
    value: u16,
}

impl Model for UImm12 {
    ghost use Rattle.std.specs.Prelude.{ℕ, ◌<◌};

    ghost Value = { ℕ };

    ghost view = { λ i. i.value };

    ghost invariant = { λ i. i.value < 4096 };

    ghost inverse = { λ n. record { value = n } };
}

impl UImm12 {
    /// The number as a displacement; Some exactly below 4096.
    pub fn maybe_from_u64(value: u64) -> Option<UImm12>
        ensures fits { IsSome result ↔ (value < 4096) }
        ensures value { IfSome result (λ i. i ≡ value) }
    {
        if value < 4096 {
            Some(UImm12 {
                value: value as u16,
            })
        } else {
            None
        }
    }

    /// The signed displacement as an unsigned one; Some exactly for 0 to 4095.
    pub fn maybe_from_simm20(value: SImm20) -> Option<UImm12>
        ensures fits { IsSome result ↔ ((pos 0 ≤ℤ value) × (value ≤ℤ pos 4095)) }
        ensures value { IfSome result (λ i. pos i ≡ value) }
    {
        let number = value.value();
        if 0 <= number && number < 4096 {
            Some(UImm12 {
                value: number as u16,
            })
        } else {
            None
        }
    }

    /// The displacement 0.
    pub fn zero() -> UImm12
        ensures { result ≡ 0 }
    {
        UImm12 { value: 0 }
    }

    /// The value.
    pub fn bits(&self) -> u32
        ensures value { result ≡ self.now }
        ensures below { result < 4096 }
    {
        u32::from(self.value)
    }
}

/// A signed displacement of 20 bits, -524288 to 524287. Contracts see it as its number.
#[derive(Clone, Copy, PartialEq, Eq, Debug)]
pub struct SImm20 {
    value: i32,
}

impl Model for SImm20 {
    ghost use Rattle.std.specs.Prelude.{ℤ, ◌≤ℤ◌, pos, negsuc};

    ghost Value = { ℤ };

    ghost view = { λ i. i.value };

    ghost invariant = { λ i. (negsuc 524287 ≤ℤ i.value) × (i.value ≤ℤ pos 524287) };

    ghost inverse = { λ z. record { value = z } };
}

impl SImm20 {
    /// The number as a displacement; Some exactly for -524288 to 524287.
    pub fn maybe_from_i64(value: i64) -> Option<SImm20>
        ensures fits { IsSome result ↔ ((negsuc 524287 ≤ℤ value) × (value ≤ℤ pos 524287)) }
        ensures value { IfSome result (λ i. i ≡ value) }
    {
        if -524288 <= value && value <= 524287 {
            Some(SImm20 {
                value: value as i32,
            })
        } else {
            None
        }
    }

    /// A displacement without a sign as one with a sign, of the same value in bytes.
    pub fn from_uimm12(value: UImm12) -> SImm20
        ensures { result ≡ pos value }
    {
        SImm20 {
            value: value.bits() as i32,
        }
    }

    /// The value modulo 1048576, as its 20-bit field holds it.
    pub fn bits(&self) -> u32
        ensures value { result ≡ field20 self.now }
        ensures below { result < 1048576 }
    {
        if self.value < 0 {
            (self.value + 1048576) as u32
        } else {
            self.value as u32
        }
    }

    /// The value.
    pub fn value(&self) -> i32
        ensures value { result ≡ self.now }
        ensures least { negsuc 524287 ≤ℤ result }
        ensures greatest { result ≤ℤ pos 524287 }
    {
        self.value
    }
}

/// `bits` shifted left by 16 times `shift`.
#[derive(Clone, Copy, PartialEq, Eq, Debug)]
pub struct UImm16Shifted {
    pub bits: u16,
    pub shift: u8,
}

impl UImm16Shifted {
    /// The number as one aligned part of 16 bits, with the least such shift; None where its set bits lie in no such part.
    pub fn maybe_from_u64(value: u64) -> Option<UImm16Shifted>
        ensures value { IfSome result (λ i. (i.bits * 2 ^ (16 * i.shift) ≡ value) × (i.shift < 4)) }
        ensures least { (bits shift : ℕ) → bits < 65536 → shift < 4
            → bits * 2 ^ (16 * shift) ≡ value → MatchOption result ⊥ (λ i. i.shift ≤ shift) }
    {
        if value % 0x1_0000 == value {
            Some(UImm16Shifted {
                bits: value as u16,
                shift: 0,
            })
        } else if value / 0x1_0000 % 0x1_0000 * 0x1_0000 == value {
            Some(UImm16Shifted {
                bits: (value / 0x1_0000) as u16,
                shift: 1,
            })
        } else if value / 0x1_0000_0000 % 0x1_0000 * 0x1_0000_0000 == value {
            Some(UImm16Shifted {
                bits: (value / 0x1_0000_0000) as u16,
                shift: 2,
            })
        } else if value / 0x1_0000_0000_0000 * 0x1_0000_0000_0000 == value {
            Some(UImm16Shifted {
                bits: (value / 0x1_0000_0000_0000) as u16,
                shift: 3,
            })
        } else {
            None
        }
    }

    /// The bits at a shift by so many bits, rounded down to whole parts; Some exactly below 64.
    pub fn maybe_with_shift(imm: u16, shift: u8) -> Option<UImm16Shifted>
        ensures fits { IsSome result ↔ (shift < 64) }
        ensures value { IfSome result (λ i. i ≡ record { bits = imm; shift = shift / 16 }) }
    {
        if shift < 64 {
            Some(UImm16Shifted {
                bits: imm,
                shift: shift / 16,
            })
        } else {
            None
        }
    }

    /// The immediate with every bit of `bits` inverted, at the same shift.
    pub fn negate_bits(&self) -> UImm16Shifted
        ensures { result ≡ record { bits = 65535 - self.now.bits; shift = self.now.shift } }
    {
        UImm16Shifted {
            bits: u16::MAX - self.bits,
            shift: self.shift,
        }
    }
}

/// `bits` shifted left by 32 times `shift`.
#[derive(Clone, Copy, PartialEq, Eq, Debug)]
pub struct UImm32Shifted {
    pub bits: u32,
    pub shift: u8,
}

impl UImm32Shifted {
    /// The number as one aligned half of 32 bits, with the least such shift; None where its set bits lie in no such half.
    pub fn maybe_from_u64(value: u64) -> Option<UImm32Shifted>
        ensures value { IfSome result (λ i. (i.bits * 2 ^ (32 * i.shift) ≡ value) × (i.shift < 2)) }
        ensures least { (bits shift : ℕ) → bits < 4294967296 → shift < 2
            → bits * 2 ^ (32 * shift) ≡ value → MatchOption result ⊥ (λ i. i.shift ≤ shift) }
    {
        if value % 0x1_0000_0000 == value {
            Some(UImm32Shifted {
                bits: value as u32,
                shift: 0,
            })
        } else if value / 0x1_0000_0000 * 0x1_0000_0000 == value {
            Some(UImm32Shifted {
                bits: (value / 0x1_0000_0000) as u32,
                shift: 1,
            })
        } else {
            None
        }
    }

    /// The bits at a shift by so many bits, rounded down to whole halves; Some exactly below 64.
    pub fn maybe_with_shift(imm: u32, shift: u8) -> Option<UImm32Shifted>
        ensures fits { IsSome result ↔ (shift < 64) }
        ensures value { IfSome result (λ i. i ≡ record { bits = imm; shift = shift / 32 }) }
    {
        if shift < 64 {
            Some(UImm32Shifted {
                bits: imm,
                shift: shift / 32,
            })
        } else {
            None
        }
    }

    /// The immediate with every bit of `bits` inverted, at the same shift.
    pub fn negate_bits(&self) -> UImm32Shifted
        ensures { result ≡ record { bits = 4294967295 - self.now.bits; shift = self.now.shift } }
    {
        UImm32Shifted {
            bits: u32::MAX - self.bits,
            shift: self.shift,
        }
    }
}
