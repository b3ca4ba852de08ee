//! Laws of what a body does, which contracts above cite.
ghost use Rattle.std.specs.Prelude.{◌≡◌};

/// Brings the laws into the check.
#[tactic(auto, using(crate::proofs::Bodies::Performing::performs_then, crate::proofs::Bodies::Commands::lines_first, crate::proofs::Bodies::Jobs::handed_dry, crate::proofs::Bodies::Scripts::texts_first, crate::proofs::Bodies::Read::last_read, crate::proofs::Bodies::Marks::text_marked, crate::proofs::Bodies::Texts::line_marked, crate::proofs::Bodies::Cutting::marked_cut, crate::proofs::Bodies::Slashes::open_slashed, crate::proofs::Bodies::Body::body_lines, crate::proofs::Bodies::Popped::slash_popped, crate::proofs::Bodies::Put::put_marked, crate::proofs::Bodies::Shebangs::first_shebang))]
pub fn law(number: u8) -> u8
    ensures { result ≡ number }
{
    number
}
