//! The operands of instructions, in the order in which they are written.
ghost use Rattle.std.specs.Prelude.{◌≡◌};
ghost use Rattle.s390x_disassembler.specs.Forms.{operands_of};

use s390x_format::Form;

/// What is written between two commas.
#[derive(Clone, Copy)]
pub enum Operand {
    /// The general register in a field of registers.
    General(u8),
    /// The floating-point register.
    Float(u8),
    /// The vector register.
    Vector(u8),
    /// The access register.
    Access(u8),
    /// A mask or an immediate of eight bits, by its field.
    Mask(u8),
    /// The first mask, which is left out where it is 0.
    NonzeroMask,
    /// The first mask, which is left out where letters of the mnemonic name it.
    UnnamedMask,
    /// The immediate as a number without a sign.
    Unsigned,
    /// The immediate of 16 bits as a signed number.
    Signed16,
    /// The immediate of 32 bits as a signed number.
    Signed32,
    /// The address that lies as many bytes behind the instruction as the immediate tells.
    Target,
    /// The displacement, and the base register in a field of registers, left out where it is 0.
    Storage(u8),
    /// The displacement, and the index and the base register: without an index where that is 0.
    Indexed(u8, u8),
}

pub const BRANCH_REGISTER: [Operand; 1] = [Operand::General(1)];

pub const GENERAL_2: [Operand; 2] = [Operand::General(0), Operand::General(1)];

pub const FLOAT_2: [Operand; 2] = [Operand::Float(0), Operand::Float(1)];

pub const GENERAL_INDEXED: [Operand; 2] = [Operand::General(0), Operand::Indexed(2, 1)];

pub const FLOAT_INDEXED: [Operand; 2] = [Operand::Float(0), Operand::Indexed(2, 1)];

pub const STORAGE_BYTE: [Operand; 2] = [Operand::Storage(0), Operand::Mask(0)];

pub const GENERAL_2_STORAGE: [Operand; 3] = [
    Operand::General(0),
    Operand::General(1),
    Operand::Storage(2),
];

pub const GENERAL_UNSIGNED: [Operand; 2] = [Operand::General(0), Operand::Unsigned];

pub const TARGET: [Operand; 1] = [Operand::Target];

pub const GENERAL_TARGET: [Operand; 2] = [Operand::General(0), Operand::Target];

pub const GENERAL_SIGNED_16: [Operand; 2] = [Operand::General(0), Operand::Signed16];

pub const GENERAL_SIGNED_32: [Operand; 2] = [Operand::General(0), Operand::Signed32];

pub const GENERAL_ACCESS: [Operand; 2] = [Operand::General(0), Operand::Access(1)];

pub const FLOAT_GENERAL: [Operand; 2] = [Operand::Float(0), Operand::General(1)];

pub const GENERAL_FLOAT: [Operand; 2] = [Operand::General(0), Operand::Float(1)];

pub const GENERAL_2_MASK: [Operand; 3] = [
    Operand::General(0),
    Operand::General(1),
    Operand::UnnamedMask,
];

pub const GENERAL_3: [Operand; 3] = [
    Operand::General(0),
    Operand::General(1),
    Operand::General(2),
];

pub const GENERAL_2_COUNT: [Operand; 3] = [
    Operand::General(0),
    Operand::General(1),
    Operand::NonzeroMask,
];

pub const STORAGE_SIGNED: [Operand; 2] = [Operand::Storage(0), Operand::Signed16];

pub const VECTOR_INDEXED_LANE: [Operand; 3] = [
    Operand::Vector(0),
    Operand::Indexed(2, 1),
    Operand::Mask(0),
];

pub const VECTOR_INDEXED: [Operand; 2] = [Operand::Vector(0), Operand::Indexed(2, 1)];

pub const GENERAL_VECTOR_STORAGE: [Operand; 3] = [
    Operand::General(0),
    Operand::Vector(2),
    Operand::Storage(1),
];

pub const VECTOR_GENERAL_STORAGE: [Operand; 3] = [
    Operand::Vector(0),
    Operand::General(2),
    Operand::Storage(1),
];

pub const VECTOR_2_STORAGE: [Operand; 3] = [
    Operand::Vector(0),
    Operand::Vector(2),
    Operand::Storage(1),
];

pub const VECTOR_SIGNED_LANE: [Operand; 3] = [
    Operand::Vector(0),
    Operand::Signed16,
    Operand::Mask(0),
];

pub const VECTOR_UNSIGNED: [Operand; 2] = [Operand::Vector(0), Operand::Unsigned];

pub const VECTOR_SIGNED: [Operand; 2] = [Operand::Vector(0), Operand::Signed16];

pub const VECTOR_BITS: [Operand; 3] = [Operand::Vector(0), Operand::Mask(0), Operand::Mask(1)];

pub const VECTOR_2_LANE: [Operand; 3] = [Operand::Vector(0), Operand::Vector(1), Operand::Unsigned];

pub const VECTOR_2: [Operand; 2] = [Operand::Vector(0), Operand::Vector(1)];

pub const VECTOR_3: [Operand; 3] = [Operand::Vector(0), Operand::Vector(1), Operand::Vector(2)];

pub const VECTOR_GENERAL_2: [Operand; 3] = [
    Operand::Vector(0),
    Operand::General(1),
    Operand::General(2),
];

pub const VECTOR_3_MASK: [Operand; 4] = [
    Operand::Vector(0),
    Operand::Vector(1),
    Operand::Vector(2),
    Operand::Mask(0),
];

pub const VECTOR_4_BYTE: [Operand; 5] = [
    Operand::Vector(0),
    Operand::Vector(1),
    Operand::Vector(2),
    Operand::Vector(3),
    Operand::Mask(0),
];

pub const VECTOR_4: [Operand; 4] = [
    Operand::Vector(0),
    Operand::Vector(1),
    Operand::Vector(2),
    Operand::Vector(3),
];

pub const VECTOR_3_CONTROL: [Operand; 4] = [
    Operand::Vector(0),
    Operand::Vector(1),
    Operand::Vector(2),
    Operand::Mask(1),
];

pub const GENERAL_SIGNED_MASK: [Operand; 3] = [
    Operand::General(0),
    Operand::Signed16,
    Operand::UnnamedMask,
];

pub const GENERAL_2_BITS: [Operand; 5] = [
    Operand::General(0),
    Operand::General(1),
    Operand::Mask(0),
    Operand::Mask(1),
    Operand::Mask(2),
];

pub const GENERAL_UNSIGNED_MASK: [Operand; 3] = [
    Operand::General(0),
    Operand::Unsigned,
    Operand::UnnamedMask,
];

pub const GENERAL_2_SIGNED: [Operand; 3] = [
    Operand::General(0),
    Operand::General(1),
    Operand::Signed16,
];

/// The operands of a form.
#[tactic(auto, unfolding(crate::specs::Forms::operands_of))]
pub fn operands(form: Form) -> &'static [Operand]
    ensures { result.now ≡ operands_of form }
{
    match form {
        Form::BranchRegister => &BRANCH_REGISTER,
        Form::General2 => &GENERAL_2,
        Form::Float2 => &FLOAT_2,
        Form::GeneralIndexed => &GENERAL_INDEXED,
        Form::FloatIndexed => &FLOAT_INDEXED,
        Form::StorageByte => &STORAGE_BYTE,
        Form::General2Storage => &GENERAL_2_STORAGE,
        Form::GeneralUnsigned => &GENERAL_UNSIGNED,
        Form::Target => &TARGET,
        Form::GeneralTarget => &GENERAL_TARGET,
        Form::GeneralSigned16 => &GENERAL_SIGNED_16,
        Form::GeneralSigned32 => &GENERAL_SIGNED_32,
        Form::GeneralAccess => &GENERAL_ACCESS,
        Form::FloatGeneral => &FLOAT_GENERAL,
        Form::GeneralFloat => &GENERAL_FLOAT,
        Form::General2Mask => &GENERAL_2_MASK,
        Form::General3 => &GENERAL_3,
        Form::General2Count => &GENERAL_2_COUNT,
        Form::StorageSigned => &STORAGE_SIGNED,
        Form::VectorIndexedLane => &VECTOR_INDEXED_LANE,
        Form::VectorIndexed => &VECTOR_INDEXED,
        Form::GeneralVectorStorage => &GENERAL_VECTOR_STORAGE,
        Form::VectorGeneralStorage => &VECTOR_GENERAL_STORAGE,
        Form::Vector2Storage => &VECTOR_2_STORAGE,
        Form::VectorSignedLane => &VECTOR_SIGNED_LANE,
        Form::VectorUnsigned => &VECTOR_UNSIGNED,
        Form::VectorSigned => &VECTOR_SIGNED,
        Form::VectorBits => &VECTOR_BITS,
        Form::Vector2Lane => &VECTOR_2_LANE,
        Form::Vector2 => &VECTOR_2,
        Form::Vector3 => &VECTOR_3,
        Form::VectorGeneral2 => &VECTOR_GENERAL_2,
        Form::Vector3Mask => &VECTOR_3_MASK,
        Form::Vector4Byte => &VECTOR_4_BYTE,
        Form::Vector4 => &VECTOR_4,
        Form::Vector3Control => &VECTOR_3_CONTROL,
        Form::GeneralSignedMask => &GENERAL_SIGNED_MASK,
        Form::General2Bits => &GENERAL_2_BITS,
        Form::GeneralUnsignedMask => &GENERAL_UNSIGNED_MASK,
        Form::General2Signed => &GENERAL_2_SIGNED,
    }
}
