//! The fields of an instruction as numbers with their signs.
ghost use Rattle.std.specs.Prelude.{◌≡◌, ◌<◌, ◌^◌};
ghost use Rattle.s390x_format.specs.Layout.{SlotsFit};
ghost use Rattle.s390x_format.specs.Formats.{layout_of};
ghost use Rattle.s390x_format.specs.View.{imm_class_of, imm_of, disp_of, fields_of};

use crate::kind::FormatKind;
use crate::reading::Reading;

/// The operands of an instruction. What its format lacks is 0.
#[derive(Clone, Copy)]
pub struct Fields {
    /// Register numbers, in the order of the arguments of the format's encoding call.
    pub regs: [u8; 4],
    /// Masks and immediates of 8 bits, in that order too.
    pub masks: [u8; 3],
    /// A wider immediate in the type of the call's argument, or a distance in bytes.
    pub imm: i64,
    /// The displacement in bytes, one of 20 bits as a signed number.
    pub disp: i32,
}

/// How the bits of an immediate are read.
#[derive(Clone, Copy)]
pub enum Imm {
    /// As an unsigned number.
    Unsigned,
    /// As a signed number of 16 bits.
    Signed16,
    /// As half of a distance, of 16 bits.
    Half16,
    /// As half of a distance, of 32 bits.
    Half32,
}

/// How a format's immediate is read.
pub fn imm_class(kind: FormatKind) -> Imm
    ensures { result ≡ imm_class_of kind }
{
    match kind {
        FormatKind::RiB | FormatKind::RiC => Imm::Half16,
        FormatKind::RilB | FormatKind::RilC => Imm::Half32,
        FormatKind::Sil => Imm::Signed16,
        _ => Imm::Unsigned,
    }
}

/// What the bits of a format's immediate stand for. Most instructions have none, and bits of zero stand for 0 in each format.
fn read_imm(kind: FormatKind, bits: u32) -> i64
    ensures { result ≡ imm_of (imm_class_of kind) bits }
{
    if bits == 0 {
        return 0;
    }
    match imm_class(kind) {
        Imm::Unsigned => i64::from(bits),
        Imm::Signed16 => i64::from(((bits % 65536) as u16).cast_signed()),
        Imm::Half16 => 2 * i64::from(((bits % 65536) as u16).cast_signed()),
        Imm::Half32 => 2 * i64::from(bits.cast_signed()),
    }
}

fn read_disp(bits: u32) -> i32
    requires { bits < 2 ^ 20 }
    ensures { result ≡ disp_of bits }
{
    if bits < 524288 {
        bits as i32
    } else {
        bits as i32 - 1048576
    }
}

/// The fields of what was decoded.
pub fn view(d: &Reading) -> Fields
    requires { SlotsFit (layout_of d.now.row.format) d.now.slots }
    ensures { result ≡ fields_of d.now.row.format d.now.slots }
{
    let s = &d.slots;
    Fields {
        regs: [s[1] as u8, s[2] as u8, s[3] as u8, s[4] as u8],
        masks: [s[5] as u8, s[6] as u8, s[7] as u8],
        imm: read_imm(d.row.format, s[8]),
        disp: read_disp(s[9]),
    }
}
