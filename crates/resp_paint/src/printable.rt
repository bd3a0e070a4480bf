//! Characters that are printed as they are.

use ucd_category::GeneralCategory;

/// Returns whether these bytes are the UTF-8 of one printable character that is not ASCII.
pub(crate) fn is_printable(bytes: &[u8]) -> bool {
    let Ok(text) = std::str::from_utf8(bytes) else {
        return false;
    };
    let mut characters = text.chars();
    match (characters.next(), characters.next()) {
        (Some(character), None) => !character.is_ascii() && has_shape(character),
        _ => false,
    }
}

/// Returns whether a character is visible: it is assigned, and is not a control character, a format
/// character or a separator.
fn has_shape(character: char) -> bool {
    !matches!(
        GeneralCategory::for_char(character),
        GeneralCategory::SpaceSeparator
            | GeneralCategory::LineSeparator
            | GeneralCategory::ParagraphSeparator
            | GeneralCategory::Control
            | GeneralCategory::Format
            | GeneralCategory::Surrogate
            | GeneralCategory::PrivateUse
            | GeneralCategory::Unassigned
    )
}

/// Returns the number of bytes of a character that begins with this byte, or 0 if no character
/// that is not ASCII does.
pub(crate) fn length_from(first: u8) -> usize {
    match first {
        0xC2..=0xDF => 2,
        0xE0..=0xEF => 3,
        0xF0..=0xF4 => 4,
        _ => 0,
    }
}
