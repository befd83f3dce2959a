//! What a row on general registers does with its fields; its second operand may be in memory.

ghost use Rattle.std.specs.Prelude.{◌≡◌};
ghost use Rattle.s390x_machine.specs.Semantics.{count_operator, action};
ghost use Rattle.s390x_machine.specs.State.{registers_of};
ghost use Rattle.s390x_machine.specs.Sound.{FieldsFit, IsSoundAction};

use crate::action_type::Action;
use crate::field_values::{first_register, immediate, operand, performs, value_in, whole_operand};
use crate::machine::Machine;
use crate::perform::is_selected;
use s390x_format::{Fields, RowSemantics, SecondOperand};
use s390x_lanes::Signedness;
use s390x_operations::{
    CodeRule, Effect, Operator, SelectedBitsOperator, Size, Width, extended_bits, rotate_value,
    selection,
};

/// Register r1 gets an operator's value.
pub fn compute(
    machine: &Machine,
    fields: &Fields,
    operator: Operator,
    size: Size,
    second: SecondOperand,
    rule: CodeRule,
) -> Action
    requires { FieldsFit (RowSemantics.Compute operator size second rule) fields.now }
    ensures value { result
        ≡ action (RowSemantics.Compute operator size second rule) fields.now
        (registers_of machine.now) machine.now.place }
    ensures sound { IsSoundAction result }
{
    let first = value_in(machine, size, first_register(second.operand_source, fields));
    performs(
        rule,
        Effect::Compute {
            operator,
            size,
            target: fields.regs[0],
            first,
            second: operand(machine, second, fields),
        },
    )
}

/// The condition code becomes the order of two values.
pub fn compare(
    machine: &Machine,
    fields: &Fields,
    sign: Signedness,
    size: Size,
    second: SecondOperand,
) -> Action
    requires { FieldsFit (RowSemantics.Compare sign size second) fields.now }
    ensures value { result
        ≡ action (RowSemantics.Compare sign size second) fields.now (registers_of machine.now)
        machine.now.place }
    ensures sound { IsSoundAction result }
{
    let first = value_in(machine, size, first_register(second.operand_source, fields));
    performs(
        CodeRule::Set,
        Effect::Compare {
            sign,
            size,
            first,
            second: operand(machine, second, fields),
        },
    )
}

/// Register r1 gets the second operand where the mask selects the condition code.
pub fn move_where(machine: &Machine, fields: &Fields, size: Size, second: SecondOperand) -> Action
    requires { FieldsFit (RowSemantics.MoveWhere size second) fields.now }
    ensures value { result
        ≡ action (RowSemantics.MoveWhere size second) fields.now (registers_of machine.now)
        machine.now.place }
    ensures sound { IsSoundAction result }
{
    if is_selected(fields.masks[0], machine.condition_code()) {
        performs(
            CodeRule::Kept,
            Effect::Compute {
                operator: Operator::Move,
                size,
                target: fields.regs[0],
                first: value_in(machine, size, fields.regs[0]),
                second: operand(machine, second, fields),
            },
        )
    } else {
        performs(CodeRule::Kept, Effect::Nothing)
    }
}

/// The operator of a count of ones: mode 0 counts those of each byte.
fn count_operator(mode: u8) -> Operator
    ensures { result ≡ count_operator mode }
{
    if mode == 0 {
        Operator::PopulationCountByByte
    } else {
        Operator::PopulationCount
    }
}

/// Register r1 gets how many ones each byte of r2 has, or all of it.
pub fn count_ones(machine: &Machine, fields: &Fields) -> Action
    requires { FieldsFit RowSemantics.CountOnes fields.now }
    ensures value { result
        ≡ action RowSemantics.CountOnes fields.now (registers_of machine.now) machine.now.place }
    ensures sound { IsSoundAction result }
{
    performs(
        CodeRule::Set,
        Effect::Compute {
            operator: count_operator(fields.masks[0]),
            size: Size::Doubleword,
            target: fields.regs[0],
            first: machine.general(fields.regs[0]),
            second: whole_operand(machine.general(fields.regs[1])),
        },
    )
}

/// The selected bits of r1 are joined with those of r2 rotated, or only tested.
pub fn rotate_then(
    machine: &Machine,
    fields: &Fields,
    operator: SelectedBitsOperator,
    rule: CodeRule,
) -> Action
    requires { FieldsFit (RowSemantics.RotateThen operator rule) fields.now }
    ensures value { result
        ≡ action (RowSemantics.RotateThen operator rule) fields.now (registers_of machine.now)
        machine.now.place }
    ensures sound { IsSoundAction result }
{
    let start = fields.masks[0];
    let end = fields.masks[1];
    let target = fields.regs[0];
    let first = machine.general(target);
    let amount = fields.masks[2] as u32;
    let second = whole_operand(rotate_value(
        Size::Doubleword,
        machine.general(fields.regs[1]),
        amount,
    ));
    let size = Size::Doubleword;
    if start < 64 {
        let operator = Operator::SelectedBits(operator, selection(start, end));
        performs(
            rule,
            Effect::Compute {
                operator,
                size,
                target,
                first,
                second,
            },
        )
    } else {
        let operator = Operator::SelectedBits(operator, selection(start.saturating_sub(128), end));
        performs(
            CodeRule::Set,
            Effect::Test {
                operator,
                size,
                first,
                second,
            },
        )
    }
}

/// The pair r1 gets the product of r2 and r3, with their signs.
pub fn multiply_signed(machine: &Machine, fields: &Fields) -> Action
    requires { FieldsFit RowSemantics.MultiplySigned fields.now }
    ensures value { result
        ≡ action RowSemantics.MultiplySigned fields.now (registers_of machine.now)
        machine.now.place }
    ensures sound { IsSoundAction result }
{
    performs(
        CodeRule::Kept,
        Effect::MultiplyPair {
            sign: Signedness::Signed,
            pair: fields.regs[0],
            first: machine.general(fields.regs[1]),
            second: machine.general(fields.regs[2]),
        },
    )
}

/// The pair r1 gets the product of its second register and r2, without signs.
pub fn multiply_logical(machine: &Machine, fields: &Fields) -> Action
    requires { FieldsFit RowSemantics.MultiplyLogical fields.now }
    ensures value { result
        ≡ action RowSemantics.MultiplyLogical fields.now (registers_of machine.now)
        machine.now.place }
    ensures sound { IsSoundAction result }
{
    performs(
        CodeRule::Kept,
        Effect::MultiplyPair {
            sign: Signedness::Unsigned,
            pair: fields.regs[0],
            first: machine.general(fields.regs[0] + 1),
            second: machine.general(fields.regs[1]),
        },
    )
}

/// The pair r1 gets the remainder and the quotient of its second register by r2, with their signs.
pub fn divide_signed(machine: &Machine, fields: &Fields, width: Width) -> Action
    requires { FieldsFit (RowSemantics.DivideSigned width) fields.now }
    ensures value { result
        ≡ action (RowSemantics.DivideSigned width) fields.now (registers_of machine.now)
        machine.now.place }
    ensures sound { IsSoundAction result }
{
    let divisor = machine.general(fields.regs[1]);
    performs(
        CodeRule::Kept,
        Effect::DividePair {
            pair: fields.regs[0],
            dividend: machine.general(fields.regs[0] + 1),
            divisor: extended_bits(Signedness::Signed, width, Size::Doubleword, divisor),
        },
    )
}

/// The pair r1 gets the remainder and the quotient of the number in its two parts by r2.
pub fn divide_logical(machine: &Machine, fields: &Fields, size: Size) -> Action
    requires { FieldsFit (RowSemantics.DivideLogical size) fields.now }
    ensures value { result
        ≡ action (RowSemantics.DivideLogical size) fields.now (registers_of machine.now)
        machine.now.place }
    ensures sound { IsSoundAction result }
{
    performs(
        CodeRule::Kept,
        Effect::DivideLogicalPair {
            size,
            pair: fields.regs[0],
            high: value_in(machine, size, fields.regs[0]),
            low: value_in(machine, size, fields.regs[0] + 1),
            divisor: value_in(machine, size, fields.regs[1]),
        },
    )
}

/// A stop where the first mask selects the order of r1 and r2.
pub fn compare_and_trap(machine: &Machine, fields: &Fields, sign: Signedness, size: Size) -> Action
    requires { FieldsFit (RowSemantics.CompareAndTrap sign size) fields.now }
    ensures value { result
        ≡ action (RowSemantics.CompareAndTrap sign size) fields.now (registers_of machine.now)
        machine.now.place }
    ensures sound { IsSoundAction result }
{
    performs(
        CodeRule::Kept,
        Effect::CompareAndTrap {
            sign,
            size,
            first: value_in(machine, size, fields.regs[0]),
            second: value_in(machine, size, fields.regs[1]),
            mask: fields.masks[0],
        },
    )
}

/// A stop where the comparison of r1 and the immediate of 16 bits holds; nothing else changes.
pub fn compare_immediate_and_trap(
    machine: &Machine,
    fields: &Fields,
    sign: Signedness,
    size: Size,
) -> Action
    requires { FieldsFit (RowSemantics.CompareImmediateAndTrap sign size) fields.now }
    ensures value { result
        ≡ action (RowSemantics.CompareImmediateAndTrap sign size) fields.now
        (registers_of machine.now) machine.now.place }
    ensures sound { IsSoundAction result }
{
    performs(
        CodeRule::Kept,
        Effect::CompareAndTrap {
            sign,
            size,
            first: value_in(machine, size, fields.regs[0]),
            second: extended_bits(sign, Width::Bits16, size, immediate(fields)),
            mask: fields.masks[0],
        },
    )
}

/// The pair r1 gets the number of leading zeros of r2, and r2 without its leftmost one.
pub fn find_leftmost_one(machine: &Machine, fields: &Fields) -> Action
    requires { FieldsFit RowSemantics.FindLeftmostOne fields.now }
    ensures value { result
        ≡ action RowSemantics.FindLeftmostOne fields.now (registers_of machine.now)
        machine.now.place }
    ensures sound { IsSoundAction result }
{
    performs(
        CodeRule::Set,
        Effect::FindLeftmostOne {
            pair: fields.regs[0],
            value: machine.general(fields.regs[1]),
        },
    )
}

/// A branch to the address in r2 under the mask r1; none for r2 = 0.
pub fn branch_to_register(machine: &Machine, fields: &Fields) -> Action
    requires { FieldsFit RowSemantics.BranchToRegister fields.now }
    ensures value { result
        ≡ action RowSemantics.BranchToRegister fields.now (registers_of machine.now)
        machine.now.place }
    ensures sound { IsSoundAction result }
{
    if fields.regs[1] == 0 {
        performs(CodeRule::Kept, Effect::Nothing)
    } else {
        Action::Branch {
            mask: fields.regs[0],
            target: machine.general(fields.regs[1]),
        }
    }
}

/// Register r1 gets the address of the next instruction; a branch to the address in r2, none for r2 = 0.
pub fn branch_and_save(machine: &Machine, fields: &Fields) -> Action
    requires { FieldsFit RowSemantics.BranchAndSaveToRegister fields.now }
    ensures value { result
        ≡ action RowSemantics.BranchAndSaveToRegister fields.now (registers_of machine.now)
        machine.now.place }
    ensures sound { IsSoundAction result }
{
    let target = if fields.regs[1] == 0 {
        machine.place.wrapping_add(2)
    } else {
        machine.general(fields.regs[1])
    };
    Action::BranchAndSave {
        link: fields.regs[0],
        target,
    }
}
