//! The text of a double.

ghost use Rattle.std.specs.Prelude.{◌≡◌, ◌↔◌, IsTrue, true, IsOk, IfOk, IfErr};
ghost use Rattle.std.proofs.Props.{props};
ghost use Rattle.resp_value.specs.Bytes.{IsLine};
ghost use Rattle.resp_value.specs.Doubles.{IsDouble};
ghost use Rattle.resp_value.specs.DoubleStages.{completes};
ghost use Rattle.resp_value.specs.declared.double_stage.DoubleStage.TheVariants.{Begun};

use crate::double_stage::DoubleStage;
use std::alloc::{AllocError, Global};
use thiserror::Error;

/// The text of a double (Redis serialization protocol specification, "Doubles").
///
/// It is an optional sign, one or more digits, an optional fraction (`.` and one or more digits)
/// and an optional exponent (`e` or `E`, an optional sign and one or more digits), or `inf`,
/// `-inf`, `nan` or `-nan`. redis-server writes `-nan`, which the specification does not have.
#[derive(Debug, PartialEq, Eq, Drop)]
pub struct Double {
    text: Vec<u8>,
    ghost is_double: { completes Begun text.items ≡ true } by { Prim.hlevel props },
}

/// The error of [`Double::new`]: the bytes are not the text of a double.
#[derive(Debug, PartialEq, Eq, Drop, Error)]
#[error("the text is not a double")]
pub struct BadDouble {
    /// The bytes that were passed, unchanged.
    pub bytes: Vec<u8>,
}

/// Returns whether the bytes are the text of a double.
pub fn is_double(text: &[u8]) -> bool
    ensures { IsTrue result ↔ IsDouble text.now }
{
    let mut stage = DoubleStage::Begun;
    for byte in text {
        match stage.after(*byte) {
            Some(next) => stage = next,
            None => return false,
        }
    }
    stage.needs() == 0
}

impl Double {
    ghost use Rattle.resp_value.specs.Values.{double_text};

    /// Creates a double of the given text. Does not allocate.
    ///
    /// # Errors
    ///
    /// `BadDouble` if and only if the bytes are not the text of a double. It returns the bytes.
    ///
    /// # Examples
    ///
    /// From [samples](../../samples/src/values.rt):
    ///
    /// ```rust
    /// let score = Double::new(Vec::from_slice(alloc, b"1.5e3")?)?;
    /// let word = Double::new(Vec::from_slice(alloc, b"1.5 seconds")?);
    /// println!(rt; "{} {}", score.text().escape_ascii(), word.is_err())?;
    /// ```
    ///
    /// This prints `1.5e3 true`.
    pub fn new(bytes: Vec<u8>) -> Result<Double, BadDouble>
        ensures ok { IsOk result ↔ IsDouble bytes.items }
        ensures kept { IfOk result (λ double. double_text double ≡ bytes.items) }
        ensures handed_back { IfErr result (λ bad. bad.bytes ≡ bytes) }
    {
        if is_double(bytes.as_slice()) {
            Ok(Double { text: bytes })
        } else {
            Err(BadDouble { bytes })
        }
    }

    /// Creates a double of a text that is one, which the caller has to prove. Does not allocate,
    /// and does not look at the bytes.
    #[inline]
    pub fn of_text(bytes: Vec<u8>) -> Double
        requires { IsDouble bytes.items }
        ensures { double_text result ≡ bytes.items }
    {
        Double { text: bytes }
    }

    /// Returns the text of the double, as it was received or made.
    pub fn text(&self) -> &[u8]
        ensures text { result.now ≡ double_text self.now }
        ensures is_double { IsDouble result.now }
        ensures is_line { IsLine result.now }
    {
        self.text.as_slice()
    }

    /// Copies the double into newly allocated memory.
    ///
    /// # Errors
    ///
    /// `AllocError` if the allocation fails.
    pub fn try_clone(&self, alloc: Global) -> Result<Double, AllocError>
        ensures { IfOk result (λ copy. double_text copy ≡ double_text self.now) }
    {
        let text = Vec::from_slice(alloc, self.text())?;
        Ok(Double { text })
    }
}
