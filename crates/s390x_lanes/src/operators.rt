// The operations of the vector rows, apart from their opcodes.
#![tactic(auto)]

use crate::size::ElementSize;

/// How an element is read as a number.
#[derive(Clone, Copy)]
pub enum Signedness {
    Unsigned,
    Signed,
}

/// An operator on two elements.
#[derive(Clone, Copy)]
pub enum BinaryOperator {
    Add,
    Sub,
    /// The low half of the product.
    Mul,
    /// The carry out of the sum.
    AddCarryOut,
    /// 1 where the difference borrows nothing.
    SubBorrowOut,
    Max(Signedness),
    Min(Signedness),
    /// Rounded up.
    Average(Signedness),
    And,
    Or,
    Xor,
    NotAnd,
    NotOr,
    NotXor,
    /// The first and the complement of the second.
    AndNot,
    /// The first or the complement of the second.
    OrNot,
}

/// A comparison of two elements.
#[derive(Clone, Copy)]
pub enum Comparison {
    Equal,
    High(Signedness),
}

/// What of a division, rounded towards zero, is the result.
#[derive(Clone, Copy)]
pub enum Division {
    Quotient,
    Remainder,
}

/// The even or the odd elements.
#[derive(Clone, Copy)]
pub enum Parity {
    Even,
    Odd,
}

/// The left or the right half of a register.
#[derive(Clone, Copy)]
pub enum Half {
    High,
    Low,
}

/// An operator on one element.
#[derive(Clone, Copy)]
pub enum UnaryOperator {
    Abs,
    Neg,
    LeadingZeros,
    TrailingZeros,
    PopulationCount,
}

/// A shift of an element or a register.
#[derive(Clone, Copy)]
pub enum ShiftOperator {
    RotateLeft,
    ShiftLeft,
    ShiftRightLogical,
    ShiftRightArithmetic,
}

/// How an element is made to fit half its bits.
#[derive(Clone, Copy)]
pub enum Narrowing {
    Modulo,
    Saturate(Signedness),
}

/// A vector row on registers and immediates, with its element size and immediates.
#[derive(Clone, Copy)]
pub enum VectorOperation {
    /// VA, VS, VML, VACC, VSCBI, VMX, VMN, VAVG and their kin by elements; VN, VO, VX and their
    /// kin on all 128 bits.
    Binary {
        operator: BinaryOperator,
        size: ElementSize,
    },
    /// VCEQ, VCH, VCHL: ones where the elements compare, else zeros.
    Compare {
        comparison: Comparison,
        size: ElementSize,
        sets_code: bool,
    },
    /// VMH, VMLH: the high half of the product.
    MultiplyHigh {
        sign: Signedness,
        size: ElementSize,
    },
    /// VME, VMLE, VMO, VMLO: whole products; the size is the operands'.
    MultiplyPairs {
        sign: Signedness,
        parity: Parity,
        size: ElementSize,
    },
    /// VD, VDL, VR, VRL.
    Divide {
        division: Division,
        sign: Signedness,
        size: ElementSize,
    },
    /// VLP, VLC, VCLZ, VCTZ, VPOPCT.
    Unary {
        operator: UnaryOperator,
        size: ElementSize,
    },
    /// VERLL, VESL, VESRL, VESRA: by the amount modulo the size.
    ShiftElements {
        operator: ShiftOperator,
        size: ElementSize,
        amount: u32,
    },
    /// VPK, VPKS, VPKLS; the size is the result's.
    Pack {
        narrowing: Narrowing,
        size: ElementSize,
    },
    /// VMRH, VMRL.
    Merge {
        half: Half,
        size: ElementSize,
    },
    /// VUPH, VUPL, VUPLH, VUPLL; the size is the operand's.
    Unpack {
        sign: Signedness,
        half: Half,
        size: ElementSize,
    },
    /// VREP.
    Replicate {
        size: ElementSize,
        index: u32,
    },
    /// VGBM.
    ByteMask {
        mask: u16,
    },
    /// VGM: ones from bit `start` to bit `end`, wrapping.
    BitMask {
        size: ElementSize,
        start: u32,
        end: u32,
    },
    /// VSEL.
    Select,
    /// VPERM.
    Permute,
    /// VPDI: doubleword `a` of the second operand, then doubleword `b` of the third.
    PermuteDoublewords {
        a: u32,
        b: u32,
    },
    /// VSL, VSRL, VSRA.
    ShiftByBits {
        operator: ShiftOperator,
    },
    /// VSLB, VSRLB, VSRAB.
    ShiftByBytes {
        operator: ShiftOperator,
    },
    /// VLR.
    Move,
    /// VLEIB, VLEIH, VLEIF, VLEIG: the immediate, sign-extended, in one element.
    InsertImmediate {
        size: ElementSize,
        value: u16,
        index: u32,
    },
    /// VREPI: the immediate, sign-extended, in each element.
    ReplicateImmediate {
        size: ElementSize,
        value: u16,
    },
    /// VBPERM.
    BitPermute,
    /// VEC, VECL: sets the condition code alone.
    CompareElement {
        sign: Signedness,
        size: ElementSize,
    },
    /// VBLEND: its result is free.
    Blend,
    /// VEVAL: its result is free.
    Evaluate {
        table: u8,
    },
}
