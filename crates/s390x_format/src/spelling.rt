//! How a machine row is written.

/// Which letters of its mnemonic an instruction's masks choose.
#[derive(Clone, Copy)]
pub enum Suffix {
    /// None.
    Plain,
    /// An element's size, by the first mask.
    Size,
    /// An element's size, by the third mask.
    ThirdSize,
    /// An element's size, by the first mask, where `h` would end another mnemonic.
    HalfwordSize,
    /// An element's size, by the first mask, and `s` where the second has the condition code set.
    SizeAndCode,
    /// A condition, by the first mask.
    Condition,
    /// A condition of a comparison that traps, by the first mask.
    Trap,
    /// A condition or its absence, by the first mask.
    Jump,
    /// The whole mnemonic of a branch to a register, by its mask, which is the first register's field.
    Return,
}

/// What stands behind a mnemonic.
#[derive(Clone, Copy)]
pub enum Form {
    BranchRegister,
    General2,
    Float2,
    GeneralIndexed,
    FloatIndexed,
    StorageByte,
    General2Storage,
    GeneralUnsigned,
    Target,
    GeneralTarget,
    GeneralSigned16,
    GeneralSigned32,
    GeneralAccess,
    FloatGeneral,
    GeneralFloat,
    General2Mask,
    General3,
    General2Count,
    StorageSigned,
    VectorIndexedLane,
    VectorIndexed,
    GeneralVectorStorage,
    VectorGeneralStorage,
    Vector2Storage,
    VectorSignedLane,
    VectorUnsigned,
    VectorSigned,
    VectorBits,
    Vector2Lane,
    Vector2,
    Vector3,
    VectorGeneral2,
    Vector3Mask,
    Vector4Byte,
    Vector4,
    Vector3Control,
    GeneralSignedMask,
    General2Bits,
    GeneralUnsignedMask,
    General2Signed,
}

/// How a machine row is written: what its mnemonics begin with, what they end with, and what stands behind them.
pub type Spelling = (&'static str, Suffix, Form);
