//! Emission, linking, the listings and the check of a plan for callers in C.
#![tactic(auto)]

mod bundle;
mod check_plan;
mod emit;
mod image;
mod operands;
mod refused;
mod show;

pub use bundle::s390x_bundle;
pub use check_plan::s390x_check_plan;
pub use emit::s390x_emit;
pub use image::s390x_image;
pub use operands::s390x_operands;
pub use show::s390x_show;
