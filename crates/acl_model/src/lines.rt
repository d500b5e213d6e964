//! Cuts a text at a byte, and returns its lines one at a time. Nothing is copied, and no byte is read twice.

ghost use Rattle.std.specs.Prelude.{◌≡◌, ◌<◌, Some, None, [], ◌∷◌, length, MatchOption, IfSome};
ghost use Rattle.acl_model.specs.Lines.{cut_at, lines};

/// What comes before and after the first byte that is `at`, or `None` where there is none.
#[tactic(auto, using(crate::proofs::LineLaws::cuts))]
pub fn cut(bytes: &[u8], at: u8) -> Option<(&[u8], &[u8])>
    ensures parts { MatchOption result
        (cut_at at bytes.now ≡ None)
        (λ p. cut_at at bytes.now ≡ Some (p.0.now, p.1.now)) }
    ensures shorter { IfSome result (λ p. length p.1.now < length bytes.now) }
{
    for (place, byte) in bytes.iter().enumerate() {
        if *byte == at {
            return Some((&bytes[..place], &bytes[place + 1..]));
        }
    }
    None
}

/// The first line, and what follows its line feed, or `None` where there is no line.
#[tactic(auto, using(crate::proofs::LineLaws::first_lines))]
pub fn next_line(bytes: &[u8]) -> Option<(&[u8], &[u8])>
    ensures lines { MatchOption result
        (lines bytes.now ≡ [])
        (λ p. lines bytes.now ≡ p.0.now ∷ lines p.1.now) }
    ensures shorter { IfSome result (λ p. length p.1.now < length bytes.now) }
{
    if bytes.is_empty() {
        return None;
    }
    match cut(bytes, b'\n') {
        Some((line, after)) => Some((line, after)),
        None => Some((bytes, &[])),
    }
}
