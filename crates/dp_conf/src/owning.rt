//! Results of fallible calls, together with owned values.
ghost use Rattle.std.specs.Prelude.{◌≡◌, IfErr, IfOk, Err, Ok};

/// The result of a call together with an owned value. If the call failed the value is dropped.
///
/// A function that owns several values drops all of them wherever it can fail. Here the owned value has any type, so that its only drop is
/// that of a variable, whatever the type is.
pub fn beside<T, M: Drop, E>(given: Result<T, E>, owned: M) -> Result<(T, M), E>
    ensures ok { IfOk result (λ both. (given ≡ Ok both.0) × (both.1 ≡ owned)) }
    ensures err { IfErr result (λ fault. given ≡ Err fault) }
{
    match given {
        Ok(value) => Ok((value, owned)),
        Err(fault) => Err(fault),
    }
}
