//! The names that a root file may have.
ghost use Rattle.std.specs.Prelude.{◌↔◌, IsTrue};
ghost use Rattle.program_loader.specs.Names.{IsRootName};

/// Whether a root file may have this name: `justfile` or `.justfile`, in any capitals.
pub fn is_root_name(name: &str) -> bool
    ensures { IsTrue result ↔ IsRootName name.now }
{
    name.eq_ignore_ascii_case("justfile") || name.eq_ignore_ascii_case(".justfile")
}
