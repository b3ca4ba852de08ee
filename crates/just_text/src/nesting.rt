//! How deep expressions may nest.
ghost use Rattle.std.specs.Prelude.{◌≡◌};

/// How deep expressions may nest.
const LEVELS: u16 = 256;

/// How many levels deep an expression may nest: one more is refused.
pub fn nesting_limit() -> u16
    ensures { result ≡ 256 }
{
    LEVELS
}
