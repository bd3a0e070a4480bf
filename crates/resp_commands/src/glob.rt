//! Matches a text with a glob.

ghost use Rattle.std.specs.Prelude.{◌≡◌, ◌<◌, ◌≤◌, ◌==◌, false, length, drop, slice_index};
ghost use Rattle.std.specs.Bool.{MatchBool};
ghost use Rattle.resp_commands.specs.Fits.{IsFit};
ghost use Rattle.resp_commands.specs.Globs.{Matches, class_length_after, fits, is_in_any, is_within, member_at, member_length, members_after, piece_at, piece_length};

/// The result of trying a part at the beginning of a glob with a byte.
#[derive(Clone, Copy)]
struct Tried<'a> {
    /// Whether the byte fits.
    fits: bool,
    /// The bytes of the glob after the part.
    rest: &'a [u8],
}

/// Returns the bytes after the first.
fn after_first(bytes: &[u8]) -> &[u8]
    requires { 0 < length bytes.now }
    ensures { result.now ≡ drop 1 bytes.now }
{
    &bytes[1..]
}

/// Returns whether a byte is between two others, or is one of them.
fn is_between(byte: u8, one: u8, other: u8) -> bool
    ensures { result ≡ is_within byte (record { one = one; other = other }) }
{
    (one <= byte && byte <= other) || (other <= byte && byte <= one)
}

/// Tries the member of a class at the beginning of some bytes.
fn member(byte: u8, text: &[u8]) -> Tried<'_>
    requires { 0 < length text.now }
    ensures fits { result.fits ≡ is_within byte (member_at text.now) }
    ensures rest { result.rest.now ≡ drop (member_length text.now) text.now }
    ensures within { member_length text.now ≤ length text.now }
    ensures shorter { length result.rest.now < length text.now }
{
    if text[0] == b'\\' && text.len() > 1 {
        return Tried {
            fits: is_between(byte, text[1], text[1]),
            rest: &text[2..],
        };
    }
    if text.len() > 2 && text[1] == b'-' {
        return Tried {
            fits: is_between(byte, text[0], text[2]),
            rest: &text[3..],
        };
    }
    Tried {
        fits: is_between(byte, text[0], text[0]),
        rest: &text[1..],
    }
}

/// Tries the members of a class, which end at a `]` or at the end of the glob.
fn members(byte: u8, text: &[u8]) -> Tried<'_>
    ensures fits { result.fits ≡ is_in_any byte (members_after 0 text.now) }
    ensures rest { result.rest.now ≡ drop (class_length_after 0 text.now) text.now }
{
    let mut rest = text;
    let mut fits = false;
    while !rest.is_empty() {
        if rest[0] == b']' {
            return Tried {
                fits,
                rest: after_first(rest),
            };
        }
        let tried = member(byte, rest);
        fits = fits || tried.fits;
        rest = tried.rest;
    }
    Tried { fits, rest }
}

/// Tries the first piece of a glob, which is not `*`.
fn piece(byte: u8, glob: &[u8]) -> Tried<'_>
    requires some { 0 < length glob.now }
    requires no_star { (slice_index glob.now 0 == 42) ≡ false }
    ensures fits { result.fits ≡ fits byte (piece_at glob.now) }
    ensures rest { result.rest.now ≡ drop (piece_length glob.now) glob.now }
    ensures shorter { length result.rest.now < length glob.now }
{
    match glob[0] {
        b'?' => Tried {
            fits: true,
            rest: &glob[1..],
        },
        b'[' if glob.len() > 1 && glob[1] == b'^' => {
            let tried = members(byte, &glob[2..]);
            Tried {
                fits: !tried.fits,
                rest: tried.rest,
            }
        }
        b'[' => members(byte, &glob[1..]),
        b'\\' if glob.len() > 1 => Tried {
            fits: is_between(byte, glob[1], glob[1]),
            rest: &glob[2..],
        },
        other => Tried {
            fits: is_between(byte, other, other),
            rest: &glob[1..],
        },
    }
}

/// How far a text fits a glob.
enum Fit<'a> {
    /// The text fits the whole glob.
    Whole,
    /// The text fits up to a `*`. These are the rest of the glob after it, and the rest of the text.
    ToStar(&'a [u8], &'a [u8]),
    /// The text does not fit up to the next `*`, or up to the end.
    Not,
}

/// Fits a text to a glob up to the next `*`.
fn fit_to_star<'a>(glob: &'a [u8], text: &'a [u8]) -> Fit<'a>
    ensures { IsFit result glob.now text.now }
{
    let mut later = glob;
    let mut rest = text;
    while !later.is_empty() {
        if later[0] == b'*' {
            return Fit::ToStar(after_first(later), rest);
        }
        if rest.is_empty() {
            return Fit::Not;
        }
        let tried = piece(rest[0], later);
        if !tried.fits {
            return Fit::Not;
        }
        later = tried.rest;
        rest = after_first(rest);
    }
    if rest.is_empty() {
        Fit::Whole
    } else {
        Fit::Not
    }
}

/// Returns whether a glob matches a whole text. In a glob
///
/// - `*` is any number of bytes,
/// - `?` is one byte,
/// - `[abc]` is one of these bytes, `[a-c]` a byte from `a` to `c`, and `[^a-c]` any other byte,
/// - `\` before a byte is this byte, even inside brackets,
/// - any other byte is itself.
///
/// A class without `]` ends with the glob, and a `\` at the end is itself. Bytes are not characters:
/// `?` is one byte of a character of several bytes. The time is at most proportional to the
/// length of the glob times that of the text.
pub fn matches(glob: &[u8], text: &[u8]) -> bool
    ensures { MatchBool result (Matches glob.now text.now) (Matches glob.now text.now → ⊥) }
{
    let (mut later, mut rest) = match fit_to_star(glob, text) {
        Fit::Whole => return true,
        Fit::Not => return false,
        Fit::ToStar(later, rest) => (later, rest),
    };
    // A `*` is before the rest of the glob.
    loop {
        match fit_to_star(later, rest) {
            Fit::Whole => return true,
            Fit::ToStar(next, shorter) => {
                later = next;
                rest = shorter;
            }
            Fit::Not if rest.is_empty() => return false,
            Fit::Not => rest = after_first(rest),
        }
    }
}
