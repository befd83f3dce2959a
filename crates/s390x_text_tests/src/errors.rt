//! The displayed texts of errors, a line each.

use crate::lines::put_lines;
use s390x_alloc::PlanFault;
use s390x_assign::AssignError;
use s390x_base::{EmitError, ExternalName};
use s390x_bundle::BundleError;
use s390x_image::LinkError;
use s390x_job_bundle::BundleTextError;
use s390x_job_plan::PlanTextError;
use s390x_operands::OperandError;
use s390x_smp::SmpError;
use std::alloc::{AllocError, Global};
use std::fmt::Display;

/// The texts of the errors of this name, or the program's lines; nothing where there are none of this name.
pub fn texts_of_errors(alloc: Global, name: &str) -> Result<String, AllocError> {
    let mut text = String::new(alloc);
    put_errors(alloc, &mut text, name)?;
    Ok(text)
}

// The texts of the errors of this name.
fn put_errors(alloc: Global, text: &mut String, name: &str) -> Result<(), AllocError> {
    match name {
        "LinkError" => put_link_errors(text),
        "BundleError" => put_bundle_errors(text),
        "PlanFault" => put_plan_faults(text),
        "SmpError" => put_smp_errors(text),
        "BundleTextError" => put_bundle_text_errors(text),
        "PlanTextError" => put_plan_text_errors(text),
        "AssignError" => put_assign_errors(text),
        "run" => put_lines(alloc, text),
        _ => Ok(()),
    }
}

// A line with the text of an error.
fn put_error(text: &mut String, error: impl Display + Drop) -> Result<(), AllocError> {
    writeln!(text, "{error}")
}

// The errors of linking.
fn put_link_errors(text: &mut String) -> Result<(), AllocError> {
    put_error(text, LinkError::MisalignedBase)?;
    put_error(text, LinkError::ImageTooHigh)?;
    put_error(text, LinkError::UndefinedSymbol)?;
    put_error(text, LinkError::AddressOverflow)?;
    put_error(text, LinkError::OddSymbol)?;
    put_error(text, LinkError::TooFar)?;
    put_error(text, LinkError::NoMemory)
}

// The errors of bundles.
fn put_bundle_errors(text: &mut String) -> Result<(), AllocError> {
    let name = ExternalName(3);
    put_error(text, BundleError::DuplicateName { name })?;
    let error = EmitError::BadRegister;
    put_error(text, BundleError::Emit { name, error })?;
    put_error(text, BundleError::EmptyMember { name })?;
    put_error(text, BundleError::TooLong { name })?;
    put_error(text, BundleError::AddressTooHigh { name })?;
    let error = LinkError::TooFar;
    put_error(text, BundleError::Link { name, error })?;
    put_error(text, BundleError::NoMemory)
}

// The faults of plans.
fn put_plan_faults(text: &mut String) -> Result<(), AllocError> {
    put_faults_of_blocks(text, 1)?;
    put_faults_of_edits(text, 1, 2)?;
    put_error(text, PlanFault::NoMemory)
}

// The faults of blocks, of their instructions and of their pairs.
fn put_faults_of_blocks(text: &mut String, block: u32) -> Result<(), AllocError> {
    put_error(text, PlanFault::Blocks)?;
    put_error(text, PlanFault::Unsupported { block, inst: 2 })?;
    put_error(text, PlanFault::Shape { block, inst: 2 })?;
    put_error(text, PlanFault::Entry { block, pair: 3 })
}

// The faults of edits.
fn put_faults_of_edits(text: &mut String, block: u32, edit: u32) -> Result<(), AllocError> {
    let cause = OperandError::NotReal;
    let operand = 3;
    put_error(text, PlanFault::Order { block, edit })?;
    put_error(text, PlanFault::Operands { block, edit, cause })?;
    put_error(text, PlanFault::Count { block, edit })?;
    put_error(
        text,
        PlanFault::Constraint {
            block,
            edit,
            operand,
        },
    )?;
    put_error(text, PlanFault::Move { block, edit })?;
    put_error(
        text,
        PlanFault::Value {
            block,
            edit,
            operand,
        },
    )
}

// The errors of simulators.
fn put_smp_errors(text: &mut String) -> Result<(), AllocError> {
    put_error(text, SmpError::MisalignedBase)?;
    put_error(text, SmpError::ImageTooHigh)?;
    put_error(text, SmpError::BadWord)?;
    put_error(text, SmpError::NoMemory)
}

// The errors of texts of functions.
fn put_bundle_text_errors(text: &mut String) -> Result<(), AllocError> {
    put_error(text, BundleTextError::Syntax { line: 17 })?;
    put_error(text, BundleTextError::NoMemory)
}

// The errors of texts of plans.
fn put_plan_text_errors(text: &mut String) -> Result<(), AllocError> {
    put_error(text, PlanTextError::Syntax { line: 4294967295 })?;
    put_error(text, PlanTextError::NoMemory)
}

// The errors of assigned registers.
fn put_assign_errors(text: &mut String) -> Result<(), AllocError> {
    put_error(
        text,
        AssignError::Count {
            wanted: 2,
            given: 3,
        },
    )?;
    put_error(text, AssignError::Operands(OperandError::ReuseInLoop))?;
    put_error(text, AssignError::Operands(OperandError::NotReal))?;
    put_error(text, AssignError::NoMemory)
}
