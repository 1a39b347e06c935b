//! Texts that a terminal shows as they are.
ghost use Rattle.std.specs.Prelude.{◌≡◌, not};
ghost use Rattle.control.specs.Notices as spec;
ghost use Rattle.ucd_category.specs.GeneralCategory.{general_category};

use ucd_category::GeneralCategory;

/// What stands in the place of a text that is not told.
pub(crate) const UNTOLD: &str = "?";

/// Returns the text, or `UNTOLD` if it has a character that may change what is shown around it. Such are the control
/// and the format characters, and those that separate lines or paragraphs. (The Unicode Standard, "General Category":
/// Cc, Cf, Zl and Zp.)
pub(crate) fn plain(text: &str) -> &str
    ensures { result.now ≡ spec.plain text.now }
{
    if is_plain(text) { text } else { UNTOLD }
}

/// Whether no character of the text is one of these.
fn is_plain(text: &str) -> bool
    ensures { result ≡ spec.is_plain text.now }
{
    text.chars().all(|c| !is_hidden(c))
}

/// Whether the character is one of these.
fn is_hidden(character: char) -> bool
    ensures { result ≡ spec.is_hidden (general_category character) }
{
    matches!(
        GeneralCategory::for_char(character),
        GeneralCategory::Control
            | GeneralCategory::Format
            | GeneralCategory::LineSeparator
            | GeneralCategory::ParagraphSeparator
    )
}
