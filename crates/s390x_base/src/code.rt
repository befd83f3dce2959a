//! The bytes of one instruction.
ghost use Rattle.std.specs.Prelude.{◌≡◌, IsTrue, ◌↔◌, IfSome, IsSome, length};
ghost use Rattle.s390x_base.specs.Code.{is_code_length};

use std::marker::Model;

/// The bytes of one instruction: 2, 4 or 6 of them (Principles of Operation, chapter 5,
/// "Instruction formats").
#[derive(Drop)]
pub struct Code {
    length: usize,
    bytes: [u8; 6],
}

/// A code is seen as the list of its bytes.
impl Model for Code {
    ghost use Rattle.std.specs.Prelude.{ℕ, List, take, length as list_length, IsTrue};
    ghost use Rattle.s390x_base.specs.Code.{is_code_length};

    ghost Value = { List ℕ };

    ghost view = { λ c. take c.length c.bytes };

    ghost invariant = { λ c. IsTrue (is_code_length c.length) };
}

impl Code {
    /// The code of these bytes; `None` exactly where there are not 2, 4 or 6 of them.
    pub fn new(bytes: &[u8]) -> Option<Code>
        ensures some { IsSome result ↔ IsTrue (is_code_length (length bytes.now)) }
        ensures bytes { IfSome result (λ c. c ≡ bytes.now) }
    {
        let length = bytes.len();
        if length != 2 && length != 4 && length != 6 {
            return None;
        }
        let mut padded = [0; 6];
        padded[..length].copy_from_slice(bytes);
        Some(Code {
            length,
            bytes: padded,
        })
    }

    /// Its bytes, in the order in which they stand in storage.
    pub fn bytes(&self) -> &[u8]
        ensures bytes { result.now ≡ self.now }
        ensures length { IsTrue (is_code_length (length self.now)) }
    {
        &self.bytes[..self.length]
    }
}
