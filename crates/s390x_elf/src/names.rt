//! The names of symbols.
ghost use Rattle.std.specs.Prelude.{◌≡◌, ◌++◌, IfOk, string_bytes};
ghost use Rattle.s390x_elf.specs.Names.{name_in};

use s390x_base::ExternalName;
use std::alloc::{AllocError, Global};

/// A name that a symbol is given.
#[derive(Drop)]
pub struct GivenName {
    pub symbol: ExternalName,
    pub name: String,
}

/// The name of a symbol in an object: the first that is given to it, or else `u7`.
pub fn symbol_name(
    alloc: Global,
    names: &[GivenName],
    symbol: ExternalName,
) -> Result<String, AllocError>
    ensures { IfOk result (λ name. string_bytes name ≡ name_in names.now symbol) }
{
    for given in names {
        if given.symbol.0 == symbol.0 {
            return given.name.clone();
        }
    }
    format!(in alloc; "u{}", symbol.0)
}
