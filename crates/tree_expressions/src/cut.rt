//! What is cut off the ends of a text.
ghost use Rattle.std.specs.Prelude.{◌≡◌};
ghost use Rattle.tree_expressions.specs.Cutting as spec;

/// The text begins with this.
pub fn begins(text: &str, front: &str) -> bool
    ensures { result ≡ spec.begins text.now front.now }
{
    text.starts_with(front)
}

/// The text ends with this.
pub fn ends(text: &str, back: &str) -> bool
    ensures { result ≡ spec.ends text.now back.now }
{
    text.ends_with(back)
}

/// The text without this front, if it begins with it.
pub fn without_front<'a>(text: &'a str, front: &str) -> &'a str
    ensures { result.now ≡ spec.without_front front.now text.now }
{
    text.strip_prefix(front).unwrap_or(text)
}

/// The text without this back, if it ends with it.
pub fn without_back<'a>(text: &'a str, back: &str) -> &'a str
    ensures { result.now ≡ spec.without_back back.now text.now }
{
    text.strip_suffix(back).unwrap_or(text)
}
