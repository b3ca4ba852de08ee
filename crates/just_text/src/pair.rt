//! A value that waits for another.
ghost use Rattle.std.specs.Prelude.{◌≡◌};
ghost use Rattle.std.specs.Result.{result_map_both};

/// The two together, unless the second is refused: then the first is dropped.
///
/// A function that holds a tree over a call that may be refused has it dropped here, where its type
/// is not known and the proof is short.
pub fn both<A: Drop, B, F>(first: A, second: Result<B, F>) -> Result<(A, B), F>
    ensures { result ≡ result_map_both (λ b. (first, b)) (λ f. f) second }
{
    match second {
        Ok(second) => Ok((first, second)),
        Err(refused) => Err(refused),
    }
}
