//! Parts of bytes.

ghost use Rattle.std.specs.Prelude.{◌≡◌, ◌≢◌, ◌∷◌, ◌++◌, All, MatchOption};

/// The bytes before and after the first mark, if there is one.
///
/// ```text
/// split_at_first(b"a=b=c", b'='); // Some((b"a", b"b=c"))
/// ```
pub fn split_at_first(bytes: &[u8], mark: u8) -> Option<(&[u8], &[u8])>
    ensures { MatchOption result (All (λ b. b ≢ mark) bytes.now)
        (λ p. All (λ b. b ≢ mark) p.0.now × (bytes.now ≡ p.0.now ++ mark ∷ p.1.now)) }
{
    let index = bytes.iter().position(|b| *b == mark)?;
    Some((&bytes[..index], &bytes[index + 1..]))
}
