//! Frames, facilities and the state of emission.
ghost use Rattle.std.specs.Prelude.{◌≡◌, ◌+◌, ℕ, Option, None};
ghost use Rattle.s390x_inst.specs.State.{fresh_emission};
ghost use Rattle.s390x_inst.specs.declared.state.FrameLayout.{FrameLayout};
ghost use Rattle.s390x_inst.specs.declared.calls.CallConv.{CallConv};

use crate::calls::CallConv;
use std::marker::Model;

/// The register save area that a caller provides, in bytes.
pub const REG_SAVE_AREA_SIZE: u32 = 160;

/// The layout of a frame. Sizes are in bytes.
#[derive(Clone, Copy, PartialEq, Eq, Debug)]
pub struct FrameLayout {
    pub incoming_args_size: u32,
    pub tail_args_size: u32,
    pub clobber_size: u32,
    pub fixed_frame_storage_size: u32,
    pub stackslots_size: u32,
    pub outgoing_args_size: u32,
    /// The first of the general registers that are saved, up to `%r14`.
    pub first_saved_gpr: Option<u8>,
    /// Bit n stands for float register n.
    pub saved_fprs: u16,
}

impl FrameLayout {
    /// The distance from the stack pointer to the frame pointer: outgoing arguments, fixed storage and clobbers.
    pub fn sp_to_fp(&self) -> u64
        ensures { result
            ≡ self.now.outgoing_args_size + self.now.fixed_frame_storage_size
            + self.now.clobber_size }
    {
        u64::from(self.outgoing_args_size)
            + u64::from(self.fixed_frame_storage_size)
            + u64::from(self.clobber_size)
    }
}

impl Default for FrameLayout {
    ghost use Rattle.s390x_inst.specs.State.{empty_layout};

    ghost is_default = { λ layout. layout ≡ empty_layout };

    /// A frame of no bytes, and no saved register.
    fn default() -> FrameLayout {
        FrameLayout {
            incoming_args_size: 0,
            tail_args_size: 0,
            clobber_size: 0,
            fixed_frame_storage_size: 0,
            stackslots_size: 0,
            outgoing_args_size: 0,
            first_saved_gpr: None,
            saved_fprs: 0,
        }
    }
}

/// Which facilities beyond the base the code may use, and which of the base it may not.
#[derive(Clone, Copy, PartialEq, Eq, Debug)]
pub struct IsaFlags {
    pub has_mie3: bool,
    pub has_mie4: bool,
    pub has_vxrs_ext2: bool,
    pub has_vxrs_ext3: bool,
    /// The machine has no relative loads, stores and compares. LARL and the relative branches remain.
    pub no_relative_memory: bool,
}

impl Default for IsaFlags {
    ghost use Rattle.s390x_inst.specs.State.{base_facilities};

    ghost is_default = { λ flags. flags ≡ base_facilities };

    /// No facility beyond the base, and the whole base.
    fn default() -> IsaFlags {
        IsaFlags {
            has_mie3: false,
            has_mie4: false,
            has_vxrs_ext2: false,
            has_vxrs_ext3: false,
            no_relative_memory: false,
        }
    }
}

/// What emission knows of the machine.
#[derive(Clone, Copy, PartialEq, Eq, Debug)]
pub struct EmitInfo {
    pub isa_flags: IsaFlags,
}

impl EmitInfo {
    /// The machine with these facilities.
    pub fn new(isa_flags: IsaFlags) -> EmitInfo
        ensures { result ≡ record { isa_flags = isa_flags } }
    {
        EmitInfo { isa_flags }
    }
}

/// The state of emission between instructions. Contracts see it as its sizes, in bytes, its stack map and its layout.
#[derive(Clone, Copy, PartialEq, Eq, Debug)]
pub struct EmitState {
    nominal_sp_offset: u32,
    outgoing_sp_offset: u32,
    incoming_args_size: u32,
    stack_map: Option<u32>,
    frame_layout: FrameLayout,
}

impl Model for EmitState {
    ghost use Rattle.s390x_inst.specs.Emission.{Emission};

    ghost Value = { Emission };

    ghost view = { λ s. record { nominal = s.nominal_sp_offset; outgoing = s.outgoing_sp_offset; incoming = s.incoming_args_size; stack_map = s.stack_map; layout = s.frame_layout } };

    ghost inverse = { λ e. record { nominal_sp_offset = e.nominal; outgoing_sp_offset = e.outgoing; incoming_args_size = e.incoming; stack_map = e.stack_map; frame_layout = e.layout } };
}

impl Default for EmitState {
    ghost use Rattle.s390x_inst.specs.State.{empty_emission};

    ghost is_default = { λ state. state ≡ empty_emission };

    /// No sizes, no stack map, and the frame of no bytes.
    fn default() -> EmitState {
        EmitState {
            nominal_sp_offset: 0,
            outgoing_sp_offset: 0,
            incoming_args_size: 0,
            stack_map: None,
            frame_layout: FrameLayout::default(),
        }
    }
}

/// What a driver of emission needs of its state.
pub trait MachInstEmitState {
    /// The state at the beginning of a function.
    ghost fresh: { FrameLayout → CallConv → Self };

    /// The state with another stack map.
    ghost with_stack_map: { Option ℕ → Self → Self };

    /// The layout of the frame.
    ghost layout_of: { Self → FrameLayout };

    /// The state at the beginning of a function.
    fn new(layout: FrameLayout, conv: CallConv) -> Self
        ensures { result ≡ fresh layout conv };

    /// Replaces the stack map, for the safepoint that comes next.
    fn pre_safepoint(&mut self, user_stack_map: Option<u32>)
        ensures { self.new ≡ with_stack_map user_stack_map self.old };

    /// The layout of the frame.
    fn frame_layout(&self) -> &FrameLayout
        ensures { result.now ≡ layout_of self.now };
}

impl MachInstEmitState for EmitState {
    ghost use Rattle.s390x_inst.specs.Emission.{Emission};
    ghost use Rattle.s390x_inst.specs.State.{fresh_emission as fresh_state};

    ghost fresh = { fresh_state };

    ghost with_stack_map = { λ map e. record e { stack_map = map } };

    ghost layout_of = { λ e. e.layout };

    /// No sizes and no stack map; the incoming arguments are those of the layout, but for the convention `Tail`.
    fn new(layout: FrameLayout, conv: CallConv) -> EmitState
        ensures { result ≡ fresh_emission layout conv }
    {
        let incoming_args_size = match conv {
            CallConv::Tail => 0,
            CallConv::Fast | CallConv::SystemV => layout.incoming_args_size,
        };
        EmitState {
            nominal_sp_offset: 0,
            outgoing_sp_offset: 0,
            incoming_args_size,
            stack_map: None,
            frame_layout: layout,
        }
    }

    fn pre_safepoint(&mut self, user_stack_map: Option<u32>)
        ensures { self.new ≡ record self.old { stack_map = user_stack_map } }
    {
        self.stack_map = user_stack_map;
    }

    fn frame_layout(&self) -> &FrameLayout
        ensures { result.now ≡ self.now.layout }
    {
        &self.frame_layout
    }
}

impl EmitState {
    /// How far the stack pointer lies below its place in the frame.
    pub fn nominal(&self) -> u32
        ensures { result ≡ self.now.nominal }
    {
        self.nominal_sp_offset
    }

    /// The size of the outgoing arguments that a call has left behind.
    pub fn outgoing(&self) -> u32
        ensures { result ≡ self.now.outgoing }
    {
        self.outgoing_sp_offset
    }

    /// The size of the incoming arguments above the register save area.
    pub fn incoming(&self) -> u32
        ensures { result ≡ self.now.incoming }
    {
        self.incoming_args_size
    }

    /// Gives the stack map, and leaves none.
    pub fn take_stack_map(&mut self) -> Option<u32>
        ensures value { result ≡ self.old.stack_map }
        ensures taken { self.new ≡ record self.old { stack_map = None } }
    {
        let map = self.stack_map;
        self.stack_map = None;
        map
    }

    /// Drops the stack map.
    pub fn clear_post_insn(&mut self)
        ensures { self.new ≡ record self.old { stack_map = None } }
    {
        self.stack_map = None;
    }

    /// Replaces the nominal size.
    pub fn set_nominal(&mut self, size: u32)
        ensures { self.new ≡ record self.old { nominal = size } }
    {
        self.nominal_sp_offset = size;
    }

    /// Replaces the outgoing size.
    pub fn set_outgoing(&mut self, size: u32)
        ensures { self.new ≡ record self.old { outgoing = size } }
    {
        self.outgoing_sp_offset = size;
    }
}
