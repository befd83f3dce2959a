//! Vector operands in memory.

ghost use Rattle.std.specs.Prelude.{◌≡◌, ℕ, ◌+◌, ◌-◌, ◌*◌, ◌<◌, ◌≤◌, ◌^◌, ◌==◌, if◌then◌else◌};
ghost use Rattle.s390x_lanes.specs.Size.{element_bits, lane_count};
ghost use Rattle.s390x_lanes.specs.Lanes.{lane};
ghost use Rattle.s390x_operations.specs.Bits.{bytes_in_reverse};
ghost use Rattle.s390x_operations.specs.Vectors.{element_value, layout_bytes, register_after_load, vector_stored};
ghost use Rattle.s390x_operations.specs.Layouts.{layout_size, loaded_lane};

use crate::VectorLayout;
use s390x_lanes::{ElementSize, append, element};

/// The lowest bytes of a number in reverse order, at most 16.
#[tactic(auto, using(crate::proofs::Runs::reversed_none, crate::proofs::Runs::reversed_more, crate::proofs::Numbers::wide_room))]
pub fn reversed_wide(n: u32, x: u128) -> u128
    requires { n ≤ 16 }
    ensures value { result ≡ bytes_in_reverse n x }
    ensures below { result < 256 ^ n }
{
    let mut rest = x;
    let mut done: u128 = 0;
    for i in 0..n {
        done = done * 256 + rest % 256;
        rest = rest / 256;
    }
    done
}

/// An element, its bytes reversed where the flag says so.
#[tactic(auto, using(crate::proofs::Layouts::whole_bytes))]
fn element_value(backwards: bool, size: ElementSize, x: u128) -> u128
    requires { x < 2 ^ element_bits size }
    ensures value { result ≡ element_value backwards size x }
    ensures fits { result < 2 ^ element_bits size }
{
    if backwards {
        reversed_wide(size.bits() / 8, x)
    } else {
        x
    }
}

/// The size of a layout's elements.
fn layout_size(layout: VectorLayout) -> ElementSize
    ensures { result ≡ layout_size layout }
{
    match layout {
        VectorLayout::Whole => ElementSize::Quadword,
        VectorLayout::ReversedBytes(size) => size,
        VectorLayout::ReversedElements(size) => size,
        VectorLayout::Replicated(size, _) => size,
        VectorLayout::Element(size, _, _) => size,
    }
}

/// How many bytes lie in memory.
pub fn layout_bytes(layout: VectorLayout) -> u32
    ensures value { result ≡ layout_bytes layout }
    ensures few { result ≤ 16 }
{
    match layout {
        VectorLayout::Whole => 16,
        VectorLayout::ReversedBytes(_) => 16,
        VectorLayout::ReversedElements(_) => 16,
        VectorLayout::Replicated(size, _) => size.bits() / 8,
        VectorLayout::Element(size, _, _) => size.bits() / 8,
    }
}

/// The element at a place, or the value where it is another one.
fn element_or(size: ElementSize, old: u128, index: u8, i: u32, value: u128) -> u128
    requires inside { i < lane_count size }
    requires fits { value < 2 ^ element_bits size }
    ensures value { result ≡ (if i == index then value else lane (element_bits size) old i) }
    ensures fits { result < 2 ^ element_bits size }
{
    if i == index as u32 {
        value
    } else {
        element(size, old, i)
    }
}

/// Lane i of a register that held `old`, after a load of the number x.
#[tactic(auto, using(crate::proofs::Layouts::bytes_whole))]
fn loaded_lane(layout: VectorLayout, old: u128, x: u128, i: u32) -> u128
    requires inside { i < lane_count (layout_size layout) }
    requires fits { x < 2 ^ (8 * layout_bytes layout) }
    ensures value { result ≡ loaded_lane layout old x i }
    ensures fits { result < 2 ^ element_bits (layout_size layout) }
{
    match layout {
        VectorLayout::Whole => x,
        VectorLayout::ReversedBytes(size) => element_value(true, size, element(size, x, i)),
        VectorLayout::ReversedElements(size) => element(size, x, size.lane_count() - 1 - i),
        VectorLayout::Replicated(size, backwards) => element_value(backwards, size, x),
        VectorLayout::Element(size, index, backwards) => {
            element_or(size, old, index, i, element_value(backwards, size, x))
        }
    }
}

/// A register that held `old`, after a load of the number x.
pub fn register_after_load(layout: VectorLayout, old: u128, x: u128) -> u128
    requires { x < 2 ^ (8 * layout_bytes layout) }
    ensures { result ≡ register_after_load layout old x }
{
    if let VectorLayout::Whole = layout {
        return x;
    }
    let size = layout_size(layout);
    let w = size.bits();
    let n = size.lane_count();
    let mut all = 0;
    for i in 0..n {
        let value = loaded_lane(layout, old, x, i);
        all = append(w, all, value);
    }
    all
}

/// The element at a place; the last one where there is none.
#[tactic(auto, using(crate::proofs::Layouts::last_lane))]
fn element_at(size: ElementSize, x: u128, index: u8) -> u128
    ensures value { result ≡ lane (element_bits size) x index }
    ensures fits { result < 2 ^ element_bits size }
{
    let last = size.lane_count() - 1;
    if (index as u32) < last {
        element(size, x, index as u32)
    } else {
        element(size, x, last)
    }
}

/// The number that a store of a register's value puts into memory.
pub fn vector_stored(layout: VectorLayout, x: u128) -> u128
    ensures { result ≡ vector_stored layout x }
{
    match layout {
        VectorLayout::Whole => x,
        VectorLayout::ReversedBytes(_) => register_after_load(layout, 0, x),
        VectorLayout::ReversedElements(_) => register_after_load(layout, 0, x),
        VectorLayout::Replicated(size, backwards) => {
            element_value(backwards, size, element_at(size, x, 0))
        }
        VectorLayout::Element(size, index, backwards) => {
            element_value(backwards, size, element_at(size, x, index))
        }
    }
}
