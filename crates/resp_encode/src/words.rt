//! Commands, encoded as arrays of bulk strings in version 2.

ghost use Rattle.resp_value.specs.Rules.{rules_under};
ghost use Rattle.resp_encode.specs.Encodings.{IsVerdict, AppendsWhole};
ghost use Rattle.std.specs.Prelude.{◌≡◌, ℕ, ◌<◌, ◌≤◌, List, length, map, IsErrOf, IfErr, IfOk, OnOk};
ghost use Rattle.resp_value.specs.Data.{data_of_list};
ghost use Rattle.resp_value.specs.Trees.{texts};
ghost use Rattle.resp_value.specs.Canonical.{AreValues, Fits, IsFirstOver, IsValue, canonical_text, canonical_trees};
ghost use Rattle.resp_encode.specs.Walks.Measures.{DescribesEach};
ghost use Rattle.resp_value.specs.Words.{texts_of, word_datum, command_of};
ghost use Rattle.resp_encode.specs.Lengths.{HaveLengths};
ghost use Rattle.resp_encode.specs.Walks.Writings.{Fills};
ghost use Rattle.resp_value.specs.declared.cause.Limit.{Limit};
ghost use Rattle.resp_encode.specs.declared.error.EncodeError.{EncodeError};
ghost use Rattle.resp_value.specs.declared.version.Version.TheVariants.{Two};

use crate::error::EncodeError;
use crate::first_fault::checked_size;
use crate::measure::Measure;
use crate::measure_value::{measure_bulk, measure_bulk_of};
use crate::room::reserve;
use crate::text::{write_head, write_string};
use bytes::BytesMut;
use resp_value::cause::Limit;
use resp_value::kind::OpenKind;
use resp_value::limits::Limits;
use resp_value::version::Version;

/// Returns the measure of consecutive words, each as a bulk string.
fn measure_words(words: &[Vec<u8>]) -> Measure
    ensures found { DescribesEach Two (data_of_list (map word_datum (texts_of words.now))) result }
    ensures are_values { AreValues (data_of_list (map word_datum (texts_of words.now))) }
{
    let mut found = Measure::nothing();
    for word in words {
        found = found.with(&measure_bulk(word.as_slice()));
    }
    found
}

/// Appends each word as a bulk string. The buffer already has room for them.
fn write_each(words: &[Vec<u8>], out: &mut BytesMut)
    requires { length (texts (canonical_trees Two
        (data_of_list (map word_datum (texts_of words.now))))) ≤ out.old.spare }
    ensures { Fills out.old out.new (texts
        (canonical_trees Two (data_of_list (map word_datum (texts_of words.now))))) }
{
    for word in words {
        write_string(out, b'$', word.as_slice());
    }
}

/// Appends the text of a command. The buffer already has room for it.
fn write_words(words: &[Vec<u8>], out: &mut BytesMut)
    requires { length (canonical_text Two (command_of (texts_of words.now))) ≤ out.old.spare }
    ensures { Fills out.old out.new (canonical_text Two (command_of (texts_of words.now))) }
{
    write_head(out, b'*', words.len() as u64);
    write_each(words, out);
}

/// Returns the number of bytes of a command's text, or the first limit that it exceeds.
fn checked_words_size(limits: &Limits, words: &[Vec<u8>]) -> Result<usize, EncodeError>
    ensures verdict { IsVerdict (rules_under Two limits.now) (command_of (texts_of words.now))
        result }
    ensures size { IfOk result (λ size. size ≡
        length (canonical_text Two (command_of (texts_of words.now)))) }
    ensures not_memory { IsErrOf result EncodeError.OutOfMemory → ⊥ }
    ensures is_value { IsValue (command_of (texts_of words.now)) }
{
    let found = measure_words(words).inside(OpenKind::Array, words.len() as u64);
    checked_size(&found, Version::Two, limits)
}

/// Checks whether [`encode_words`] accepts these words. Does not allocate.
///
/// # Errors
///
/// Those of [`encode_words`], except `OutOfMemory`.
///
/// # Examples
///
/// From [samples](../../samples/src/encoding.rt):
///
/// ```rust
/// let limits = Limits::new(4, 64, 256)?;
/// let words = [b"SET".to_vec(alloc)?, Vec::from_slice(alloc, &[b'x'; 65])?];
/// println!(rt; "{:?}", check_words(&limits, words.as_slice()))?;
/// ```
///
/// This prints `Err(OverLimits(Length))`.
pub fn check_words(limits: &Limits, words: &[Vec<u8>]) -> Result<(), EncodeError>
    ensures verdict { IsVerdict (rules_under Two limits.now) (command_of (texts_of words.now))
        result }
    ensures not_memory { IsErrOf result EncodeError.OutOfMemory → ⊥ }
{
    checked_words_size(limits, words)?;
    Ok(())
}

/// Appends the canonical text of a command to `out`, or leaves `out` unchanged. The text is the
/// array of the words as bulk strings in version 2 (Redis serialization protocol specification,
/// "Sending commands to a Redis server").
///
/// # Errors
///
/// Those of [`encode`](crate::encode) for this array. `out` is unchanged.
///
/// # Examples
///
/// From [samples](../../samples/src/encoding.rt):
///
/// ```rust
/// let words = [b"GET".to_vec(alloc)?, b"hits".to_vec(alloc)?];
/// encode_words(&Limits::standard(), words.as_slice(), &mut out)?;
/// println!(rt; "{}", out.escape_ascii())?;
/// ```
///
/// This prints `*2\r\n$3\r\nGET\r\n$4\r\nhits\r\n`.
pub fn encode_words(
    limits: &Limits,
    words: &[Vec<u8>],
    out: &mut BytesMut,
) -> Result<(), EncodeError>
    ensures verdict { IsVerdict (rules_under Two limits.now) (command_of (texts_of words.now))
        result }
    ensures whole_or_nothing { AppendsWhole out.old out.new
        (canonical_text Two (command_of (texts_of words.now))) result }
    // The array is a value of the protocol, whatever the words are.
    ensures is_value { OnOk result (IsValue (command_of (texts_of words.now))) }
{
    let size = checked_words_size(limits, words)?;
    reserve(out, size)?;
    write_words(words, out);
    Ok(())
}

/// Returns the measure of consecutive words of the given lengths, each as a bulk string.
fn measure_lengths(lengths: &[usize]) -> Measure
    ensures { (words : List (List ℕ)) → HaveLengths words lengths.now →
        DescribesEach Two (data_of_list (map word_datum words)) result }
{
    let mut found = Measure::nothing();
    for counted in lengths {
        found = found.with(&measure_bulk_of(*counted as u64));
    }
    found
}

/// Returns the limit that a command exceeds. A command has no other fault.
fn limit_of(error: EncodeError) -> Limit
    ensures { (over : Limit) → error ≡ EncodeError.OverLimits over → result ≡ over }
{
    match error {
        EncodeError::OverLimits(over) => over,
        EncodeError::Double
        | EncodeError::NotInVersion
        | EncodeError::NestedPush
        | EncodeError::OutOfMemory => Limit::Total,
    }
}

/// Returns the number of bytes of a command's text, computed from the lengths of its words. Does
/// not allocate.
///
/// # Errors
///
/// The first limit that a command of such words exceeds, if there is one.
///
/// # Examples
///
/// From [samples](../../samples/src/encoding.rt):
///
/// ```rust
/// println!(rt; "{:?}", words_size(&Limits::standard(), &[3, 4]))?;
/// ```
///
/// This prints `Ok(23)`.
pub fn words_size(limits: &Limits, lengths: &[usize]) -> Result<usize, Limit>
    ensures fits { (words : List (List ℕ)) → HaveLengths words lengths.now →
        OnOk result (Fits (rules_under Two limits.now) (command_of words)) }
    ensures size { (words : List (List ℕ)) → HaveLengths words lengths.now →
        IfOk result (λ size. size ≡ length (canonical_text Two (command_of words))) }
    ensures first_limit { (words : List (List ℕ)) → HaveLengths words lengths.now →
        IfErr result (IsFirstOver (rules_under Two limits.now) (command_of words)) }
{
    let found = measure_lengths(lengths).inside(OpenKind::Array, lengths.len() as u64);
    match checked_size(&found, Version::Two, limits) {
        Ok(size) => Ok(size),
        Err(error) => Err(limit_of(error)),
    }
}
