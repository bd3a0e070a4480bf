//! The text of a simple string or a simple error: bytes without CR and LF.

ghost use Rattle.std.specs.Prelude.{◌≡◌, ◌↔◌, List, IsTrue, IsOk, IfOk, IfErr, All};
ghost use Rattle.std.proofs.Props.{props};
ghost use Rattle.resp_value.specs.Bytes.{IsText, IsLine, IsPlain};

use std::alloc::{AllocError, Global};
use thiserror::Error;

/// Bytes without CR and LF: the text of a simple string or a simple error (Redis
/// serialization protocol specification, "Simple strings" and "Simple errors").
#[derive(Debug, PartialEq, Eq, Drop)]
pub struct Line {
    text: Vec<u8>,
    ghost are_bytes: { IsText text.items } by { Prim.hlevel props },
    ghost is_line: { IsLine text.items } by { Prim.hlevel props },
}

/// The error of [`Line::new`]: the bytes contain CR or LF.
#[derive(Debug, PartialEq, Eq, Drop, Error)]
#[error("the line contains CR or LF")]
pub struct BadLine {
    /// The bytes that were passed, unchanged.
    pub bytes: Vec<u8>,
}

/// Returns whether the bytes contain neither CR nor LF.
fn is_line(bytes: &[u8]) -> bool
    ensures { IsTrue result ↔ All IsPlain bytes.now }
{
    bytes.iter().all(|byte| *byte != b'\r' && *byte != b'\n')
}

impl Line {
    ghost use Rattle.resp_value.specs.Values.{line_text};

    /// Creates a line of the given bytes, which may be empty. Does not allocate.
    ///
    /// # Errors
    ///
    /// `BadLine` if and only if the bytes contain CR or LF. It returns the bytes.
    ///
    /// # Examples
    ///
    /// From [samples](../../samples/src/values.rt):
    ///
    /// ```rust
    /// let pong = Line::new(Vec::from_slice(alloc, b"PONG")?)?;
    /// let two_lines = Line::new(Vec::from_slice(alloc, b"two\r\nlines")?);
    /// println!(rt; "{} {}", pong.text().escape_ascii(), two_lines.is_err())?;
    /// ```
    ///
    /// This prints `PONG true`.
    pub fn new(bytes: Vec<u8>) -> Result<Line, BadLine>
        ensures ok { IsOk result ↔ IsLine bytes.items }
        ensures kept { IfOk result (λ line. line_text line ≡ bytes.items) }
        ensures handed_back { IfErr result (λ bad. bad.bytes ≡ bytes) }
    {
        if is_line(bytes.as_slice()) {
            Ok(Line { text: bytes })
        } else {
            Err(BadLine { bytes })
        }
    }

    /// Creates a line of bytes that contain neither CR nor LF, which the caller has to prove. Does
    /// not allocate, and does not look at the bytes.
    #[inline]
    pub fn of_plain(bytes: Vec<u8>) -> Line
        requires { IsLine bytes.items }
        ensures { line_text result ≡ bytes.items }
    {
        Line { text: bytes }
    }

    /// Returns the bytes of the line, without the CR LF that ends it in the encoding.
    pub fn text(&self) -> &[u8]
        ensures text { result.now ≡ line_text self.now }
        ensures is_line { IsLine result.now }
    {
        self.text.as_slice()
    }

    /// Copies the line into newly allocated memory.
    ///
    /// # Errors
    ///
    /// `AllocError` if the allocation fails.
    pub fn try_clone(&self, alloc: Global) -> Result<Line, AllocError>
        ensures { IfOk result (λ copy. line_text copy ≡ line_text self.now) }
    {
        let text = Vec::from_slice(alloc, self.text())?;
        Ok(Line { text })
    }
}
