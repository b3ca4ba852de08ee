//! Texts as components of a URI.
ghost use Rattle.std.specs.Prelude.{◌≡◌, IfOk};
ghost use Rattle.std.specs.List.{flat_map};
ghost use Rattle.std.specs.String.{string_bytes};
ghost use Rattle.just_value.specs.Uris.{uri_byte};

use percent_encoding::{AsciiSet, NON_ALPHANUMERIC, ascii_set, utf8_percent_encode};
use std::alloc::{AllocError, Global};

/// The ASCII bytes that are escaped.
const ESCAPED: AsciiSet = ascii_set!(
    NON_ALPHANUMERIC
        .remove(b'-')
        .remove(b'_')
        .remove(b'.')
        .remove(b'!')
        .remove(b'~')
        .remove(b'*')
        .remove(b'\'')
        .remove(b'(')
        .remove(b')')
);

/// The text with each byte but ASCII letters, digits and `-_.!~*'()` as `%` and two upper-case
/// hexadecimal digits.
pub fn encode_uri_component(alloc: Global, text: &str) -> Result<String, AllocError>
    ensures { IfOk result (λ s. string_bytes s ≡ flat_map uri_byte text.now) }
{
    let mut encoded = String::new(alloc);
    utf8_percent_encode(text, ESCAPED).append_to(&mut encoded)?;
    Ok(encoded)
}
