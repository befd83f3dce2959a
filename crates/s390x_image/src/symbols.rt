//! The addresses of symbols.
ghost use Rattle.std.specs.Prelude.{◌≡◌, ◌==◌, if◌then◌else◌, IfOk, MatchResult};
ghost use Rattle.s390x_base.specs.declared.ir.ExternalName.{ExternalName as Name};
ghost use Rattle.s390x_image.specs.Symbols.{no_symbols, address_of, with_address};

use s390x_base::{ExternalName, NoMemory};
use std::alloc::Global;
use std::collections::BTreeMap;
use std::marker::Model;

/// The addresses of symbols, by their names.
#[derive(Drop)]
pub struct SymbolTable {
    /// By the number of the name.
    addresses: BTreeMap<u32, u64>,
}

/// A table is seen as the finite map from the numbers of names to addresses.
impl Model for SymbolTable {
    ghost use Rattle.std.specs.Prelude.{ℕ};
    ghost use Rattle.std.specs.Ordering.{nat_cmp};
    ghost use Rattle.std.specs.FinMap as map;
    ghost use Rattle.std.specs.Coded.{coded_ℕ};

    ghost Value = { map.FinMap nat_cmp ℕ };

    ghost coded = { map.code coded_ℕ coded_ℕ };

    ghost view = { λ table. map.from_entries table.addresses.entries };
}

impl SymbolTable {
    /// A table in which no name has an address. It keeps the allocator.
    pub fn new(alloc: Global) -> SymbolTable
        ensures empty { result ≡ no_symbols }
        ensures absent { (name : Name) → address_of result name ≡ None }
    {
        SymbolTable {
            addresses: BTreeMap::new(alloc),
        }
    }

    /// Gives a name an address, in place of an earlier one. `NoMemory` leaves the table as it was.
    pub fn insert(&mut self, name: ExternalName, address: u64) -> Result<(), NoMemory>
        ensures table { MatchResult result (λ _. self.new ≡ with_address self.old name address)
            (λ _. self.new ≡ self.old) }
        ensures addresses { IfOk result
            (λ _. (other : Name)
            → address_of self.new other
            ≡ (if other.0 == name.0 then Some address else address_of self.old other)) }
    {
        match self.addresses.insert(name.0, address) {
            Ok(_) => Ok(()),
            Err(_) => Err(NoMemory),
        }
    }

    /// The address of a name; `None` exactly where none was inserted for it.
    pub fn get(&self, name: ExternalName) -> Option<u64>
        ensures { result ≡ address_of self.now name }
    {
        self.addresses.get(&name.0).copied()
    }
}
