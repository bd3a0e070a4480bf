//! The names of commands on the command line, such as `JSON.GET,JSON.SET`.

ghost use Rattle.std.specs.Prelude.{◌↔◌, All, IsTrue, option_map};
ghost use Rattle.resp_cli_args.specs.Names.{AreNames, AreNamesIfGiven, IsName, IsNameByte};

/// The most bytes of a name.
const MOST_NAME: usize = 64;

/// Returns whether a text, if there is one, consists of names of commands, with a comma between two of
/// them.
pub(crate) fn are_names_if_given(text: Option<&str>) -> bool
    ensures { IsTrue result ↔ AreNamesIfGiven (option_map (λ text. text.now) text.entry) }
{
    match text {
        Some(text) => are_names(text),
        None => true,
    }
}

/// Returns whether a text consists of names of commands, with a comma between two of them.
fn are_names(text: &str) -> bool
    ensures { IsTrue result ↔ AreNames text.now }
{
    text.split(',').all(is_name)
}

/// Returns whether a text is the name of a command.
fn is_name(text: &str) -> bool
    ensures { IsTrue result ↔ IsName text.now }
{
    !text.is_empty() && text.len() <= MOST_NAME && has_name_bytes(text.as_bytes())
}

/// Returns whether each byte may be part of a name.
fn has_name_bytes(bytes: &[u8]) -> bool
    ensures { IsTrue result ↔ All IsNameByte bytes.now }
{
    bytes.iter().all(is_name_byte)
}

/// Returns whether a byte may be part of a name.
fn is_name_byte(byte: &u8) -> bool
    ensures { IsTrue result ↔ IsNameByte byte.now }
{
    *byte > b' ' && *byte != b',' && *byte != b'|'
}
