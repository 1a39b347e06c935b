//! Cuts of a text at a separator.

ghost use Rattle.std.specs.List.{slice_split};
ghost use Rattle.std.specs.Prelude.{◌≡◌, ◌==◌, [], ◌∷◌, MatchOption};
ghost use Rattle.modpath.specs.Path.{last_or};

/// Returns the texts before and after the first separator of `text`, or `None` if it has no separator.
pub fn cut(text: &[u8], separator: u8) -> Option<(&[u8], &[u8])>
    ensures { MatchOption result
        (slice_split (λ b. b == separator) text.now ≡ text.now ∷ [])
        (λ p. slice_split (λ b. b == separator) text.now ≡ p.0.now ∷ slice_split (λ b. b == separator) p.1.now) }
{
    for at in 0..text.len() {
        if text[at] == separator {
            return Some((&text[..at], &text[at + 1..]));
        }
    }
    None
}

/// Returns the text after the last separator of `text`, or all of it if it has no separator.
pub fn last_after(text: &[u8], separator: u8) -> &[u8]
    ensures { result.now ≡ last_or [] (slice_split (λ b. b == separator) text.now) }
{
    let mut last = &text[..0];
    for field in text.split(move |byte| *byte == separator) {
        last = field;
    }
    last
}
