//! What is done once, when a buffer is finished.
ghost use Rattle.std.specs.Prelude.{◌≡◌, ◌+◌, ◌≤◌, ◌<◌, ◌++◌, ◌⊎◌, None, Some, MatchResult, length, map, IfOk, nat_lt, max, ◌^◌, ◌-◌};
ghost use Rattle.s390x_base.specs.declared.error.EmitError.TheVariants.{NoMemory};
ghost use Rattle.s390x_buffer.specs.State.{constant_of, site_of, limit};
ghost use Rattle.s390x_buffer.specs.Patch.{offset_of_label, patch_all, uses_cause};
ghost use Rattle.s390x_buffer.specs.Constants.{round_up, constant_start, constant_starts, constants_end, padded_constant, constant_bytes, greatest_align};
ghost use Rattle.s390x_buffer.specs.Finish.{bind_constants, with_constants, offsets_of, entry_of, bound_handler, bound_site};

use crate::entries::{HandlerEntry, LabelFixup, TryEntry, TryHandler, TrySite};
use crate::patch::{offset_of_label, patch_uses};
use s390x_base::{CodeOffset, ConstantData, EmitError};
use std::alloc::{AllocError, Global};

// Code ends below this length.
const LIMIT: usize = 2147483648;

// The next multiple of the alignment.
fn next_multiple(n: usize, align: usize) -> usize
    requires align { 1 ≤ align }
    requires fits { n + align < 2 ^ 63 }
    ensures { result ≡ round_up n align }
{
    (n + (align - 1)) / align * align
}

// Where a constant starts behind so many bytes.
fn start_of(n: usize, align: u32) -> usize
    requires { n < limit }
    ensures value { result ≡ round_up n (max 2 align) }
    ensures behind { n ≤ result }
    ensures near { result < n + 4294967296 }
{
    next_multiple(n, align.max(2) as usize)
}

/// Whether the constants end below the limit behind so many bytes.
pub fn constants_fit(n: usize, constants: &[ConstantData]) -> bool
    requires { n < limit }
    ensures { result ≡ nat_lt (constants_end n (map constant_of constants.now)) limit }
{
    let mut end = n;
    for c in constants {
        let next = start_of(end, c.align) + c.bytes.len();
        if next >= LIMIT {
            return false;
        }
        end = next;
    }
    true
}

// Appends a constant, with zero bytes before it.
fn append_constant(bytes: &mut Vec<u8>, constant: &ConstantData) -> Result<CodeOffset, AllocError>
    requires { constant_start (length bytes.old.items) (constant_of constant.now) < limit }
    ensures { IfOk result
        (λ start. (start ≡ constant_start (length bytes.old.items) (constant_of constant.now))
        × (bytes.new.items
        ≡ bytes.old.items ++ padded_constant (length bytes.old.items) (constant_of constant.now))) }
{
    let start = start_of(bytes.len(), constant.align);
    let gap = start - bytes.len();
    for _i in 0..gap {
        bytes.push(0)?;
    }
    bytes.extend_from_slice(&constant.bytes)?;
    Ok(start as CodeOffset)
}

/// Appends the constants, and tells where each starts.
pub fn append_constants(
    alloc: Global,
    bytes: &mut Vec<u8>,
    constants: &[ConstantData],
) -> Result<Vec<CodeOffset>, AllocError>
    requires { constants_end (length bytes.old.items) (map constant_of constants.now) < limit }
    ensures { IfOk result
        (λ starts.
        (starts.items
        ≡ constant_starts (length bytes.old.items) (map constant_of constants.now))
        × (bytes.new.items
        ≡ bytes.old.items
        ++ constant_bytes (length bytes.old.items) (map constant_of constants.now))) }
{
    let mut starts = Vec::new(alloc);
    for c in constants {
        let start = append_constant(bytes, c)?;
        starts.push(start)?;
    }
    Ok(starts)
}

/// Binds the labels from a number on to the starts of the constants.
pub fn bind_starts(labels: &mut [Option<CodeOffset>], first: u32, starts: &[CodeOffset])
    requires { first + length starts.now ≤ length labels.old }
    ensures { labels.new ≡ bind_constants first starts.now labels.old }
{
    let mut label = first as usize;
    for start in starts {
        labels[label] = Some(*start);
        label += 1;
    }
}

/// Appends the constants, binds their labels and patches the uses; tells where each constant starts. An error is the
/// first use's whose label isn't bound or whose distance doesn't fit, or `NoMemory`.
pub fn place_and_patch(
    alloc: Global,
    bytes: &mut Vec<u8>,
    labels: &mut Vec<Option<CodeOffset>>,
    block_count: u32,
    constants: &[ConstantData],
    uses: &[LabelFixup],
) -> Result<Vec<CodeOffset>, EmitError>
    requires fits { constants_end (length bytes.old.items) (map constant_of constants.now) < limit }
    requires labels { block_count + length constants.now ≤ length labels.old.items }
    ensures { let starts = constant_starts (length bytes.old.items)
        (map constant_of constants.now) in
        let all = bind_constants block_count starts labels.old.items in
        let unpatched = with_constants bytes.old.items (map constant_of constants.now) in
        MatchResult result
        (λ v. (uses_cause all uses.now unpatched ≡ None) × (v.items ≡ starts)
        × (labels.new.items ≡ all)
        × (bytes.new.items ≡ patch_all (offset_of_label all) uses.now unpatched))
        (λ e. (e ≡ NoMemory) ⊎ (uses_cause all uses.now unpatched ≡ Some e)) }
{
    let Ok(starts) = append_constants(alloc, bytes, constants) else {
        return Err(EmitError::NoMemory);
    };
    bind_starts(labels, block_count, &starts);
    match patch_uses(bytes, labels, uses) {
        Ok(()) => Ok(starts),
        Err(e) => Err(e),
    }
}

/// The greatest of 4 and the alignments.
pub fn alignment_of(constants: &[ConstantData]) -> u32
    ensures { result ≡ greatest_align 4 (map constant_of constants.now) }
{
    let mut alignment = 4;
    for c in constants {
        alignment = c.align.max(alignment);
    }
    alignment
}

/// Where the first so many labels stand; 0 where one was never bound.
pub fn starts_of(
    alloc: Global,
    labels: &[Option<CodeOffset>],
    count: u32,
) -> Result<Vec<CodeOffset>, AllocError>
    requires { count ≤ length labels.now }
    ensures { IfOk result (λ v. v.items ≡ offsets_of labels.now count) }
{
    let mut starts = Vec::new(alloc);
    for l in &labels[..count as usize] {
        starts.push(l.unwrap_or(0))?;
    }
    Ok(starts)
}

// The handlers, by their offsets.
fn place_handlers(
    alloc: Global,
    labels: &[Option<CodeOffset>],
    handlers: &[TryHandler],
) -> Result<Vec<HandlerEntry>, AllocError>
    ensures { IfOk result
        (λ v. v.items ≡ map (bound_handler (offset_of_label labels.now)) handlers.now) }
{
    let mut entries = Vec::new(alloc);
    for h in handlers {
        let offset = offset_of_label(labels, h.label.0);
        entries.push(HandlerEntry { tag: h.tag, offset })?;
    }
    Ok(entries)
}

/// The calls with a try, their handlers by their offsets.
pub fn place_try_sites(
    alloc: Global,
    labels: &[Option<CodeOffset>],
    sites: &[TrySite],
) -> Result<Vec<TryEntry>, AllocError>
    ensures { IfOk result
        (λ v. map entry_of v.items
        ≡ map (bound_site (offset_of_label labels.now)) (map site_of sites.now)) }
{
    let mut entries = Vec::new(alloc);
    for s in sites {
        let handlers = place_handlers(alloc, labels, &s.handlers)?;
        entries.push(TryEntry {
            offset: s.offset,
            frame: s.frame,
            handlers,
        })?;
    }
    Ok(entries)
}
