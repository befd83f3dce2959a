//! Facts about files.
ghost use Rattle.s390x_elf.specs.Example.{TablesAreRead};
ghost use Rattle.s390x_elf.specs.Laws.{FilesReadBack, MembersLinkAsImages, ObjectsLinkAsFilled, RelocationsReadBack, SymbolsReadBack};

/// A file of sections is read as these sections, with the one with the number 0 before them and
/// the one with the names behind them.
pub fn files_read_back()
    ensures { FilesReadBack }
{}

/// Symbols are read from their entries, where their names stand in a string table.
pub fn symbols_read_back()
    ensures { SymbolsReadBack }
{}

/// Relocations are read from their entries.
pub fn relocations_read_back()
    ensures { RelocationsReadBack }
{}

/// What is read as an object is linked as its relocations fill it: at every base where none has a
/// cause, each value fits its field.
pub fn objects_link_as_filled()
    ensures { ObjectsLinkAsFilled }
{}

/// What is read as the object of members is linked as they are: at every base where none has a
/// cause at its start, each value fits its field, and each member's bytes are as `link` fills them.
pub fn members_link_as_images()
    ensures { MembersLinkAsImages }
{}

/// Some code with entries is made an object, which is read as its object, is linked as its image,
/// and has its tables.
pub fn some_object_has_tables()
    ensures { TablesAreRead }
{}
