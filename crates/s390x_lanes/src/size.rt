// Element sizes.
#![tactic(auto)]

ghost use Rattle.std.specs.Prelude.{◌≡◌};
ghost use Rattle.s390x_lanes.specs.Size.{element_bits, lane_count, wider};

/// The size of an element, in the order of the element-size codes 0 to 4 (z/Architecture
/// Principles of Operation, vector overview).
#[derive(Clone, Copy)]
pub enum ElementSize {
    Byte,
    Halfword,
    Word,
    Doubleword,
    Quadword,
}

impl ElementSize {
    /// How many bits an element has.
    pub fn bits(self) -> u32
        ensures { result ≡ element_bits self }
    {
        match self {
            ElementSize::Byte => 8,
            ElementSize::Halfword => 16,
            ElementSize::Word => 32,
            ElementSize::Doubleword => 64,
            ElementSize::Quadword => 128,
        }
    }

    /// How many elements a register has.
    pub fn lane_count(self) -> u32
        ensures { result ≡ lane_count self }
    {
        match self {
            ElementSize::Byte => 16,
            ElementSize::Halfword => 8,
            ElementSize::Word => 4,
            ElementSize::Doubleword => 2,
            ElementSize::Quadword => 1,
        }
    }

    /// The size of twice the bits, up to 128.
    pub fn wider(self) -> ElementSize
        ensures { result ≡ wider self }
    {
        match self {
            ElementSize::Byte => ElementSize::Halfword,
            ElementSize::Halfword => ElementSize::Word,
            ElementSize::Word => ElementSize::Doubleword,
            ElementSize::Doubleword => ElementSize::Quadword,
            ElementSize::Quadword => ElementSize::Quadword,
        }
    }
}
