//! A region of memory.
ghost use Rattle.std.specs.Prelude.{◌+◌, ◌^◌, ◌≤◌, length};

/// Bytes from an address on.
#[derive(Drop)]
pub struct Region {
    pub address: u64,
    pub bytes: Vec<u8>,
    ghost fits: { address + length bytes.items ≤ 2 ^ 64 },
}
