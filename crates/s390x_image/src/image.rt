//! The image.

/// The bytes of code at an address.
#[derive(Drop)]
pub struct Image {
    /// The address of the first byte.
    pub base: u64,
    pub bytes: Vec<u8>,
}
