//! Texts of lines, such as the reply to INFO.

ghost use Rattle.std.specs.Prelude.{◌≡◌, option_map};
ghost use Rattle.resp_value.specs.Values.{datum_of};
ghost use Rattle.resp_cli_ask.specs.Lined.{are_lines, is_in_line, lines_of, text_in};

use resp_value::value::Value;

/// Returns the text of a bulk or a verbatim string whose text consists of lines, or `None` for any
/// other value.
pub(crate) fn text_of_lines(value: &Value) -> Option<&[u8]>
    ensures { option_map (λ text. text.now) result ≡ text_in (datum_of value.now) }
{
    match value {
        Value::Bulk(content) => lines_of(content.list()),
        Value::Verbatim(_, content) => lines_of(content.list()),
        _ => None,
    }
}

/// Returns these bytes if they are lines.
fn lines_of(bytes: &[u8]) -> Option<&[u8]>
    ensures { option_map (λ text. text.now) result ≡ lines_of bytes.now }
{
    if are_lines(bytes) { Some(bytes) } else { None }
}

/// Returns whether each byte is a printable ASCII character, a tab or the end of a line, and the
/// last line ends. A line ends with LF or CR LF.
fn are_lines(bytes: &[u8]) -> bool
    ensures { result ≡ are_lines bytes.now }
{
    let mut rest = bytes;
    let mut ends = false;
    while let Some((first, beyond)) = rest.split_first() {
        if !is_in_line(*first, beyond) {
            return false;
        }
        ends = *first == b'\n';
        rest = beyond;
    }
    ends
}

/// Returns whether a byte of a text is printed as it is: it is a printable ASCII character, a tab
/// or LF, or CR before LF.
fn is_in_line(byte: u8, beyond: &[u8]) -> bool
    ensures { result ≡ is_in_line byte beyond.now }
{
    match byte {
        b'\t' | b'\n' | b' '..=b'~' => true,
        b'\r' => matches!(beyond, [b'\n', ..]),
        _ => false,
    }
}
