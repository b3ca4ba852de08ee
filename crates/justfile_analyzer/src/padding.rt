//! Spaces between columns.
ghost use Rattle.std.specs.Prelude.{◌≡◌, ◌++◌, OnOk, replicate};
ghost use Rattle.std.specs.String.{string_bytes};

use std::alloc::AllocError;

/// Puts so many spaces after the text.
pub(crate) fn push_spaces(text: &mut String, count: usize) -> Result<(), AllocError>
    ensures { OnOk result (string_bytes text.new ≡ string_bytes text.old ++ replicate count 32) }
{
    for _i in 0..count {
        text.push(' ')?;
    }
    Ok(())
}
