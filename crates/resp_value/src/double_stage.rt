//! How far the text of a double has been read.

ghost use Rattle.std.specs.Prelude.{◌≡◌, ◌≤◌, None};
ghost use Rattle.resp_value.specs.DoubleStages.{stage_after, stage_needs, digit_or, after_name, after_number, only};

/// How far the text of a double has been read. A stage decides which bytes may come next.
#[derive(Clone, Copy, Debug, PartialEq, Eq)]
pub enum DoubleStage {
    /// No byte has come.
    Begun,
    /// A `+` has come.
    Plus,
    /// A `-` has come, and digits or a name may follow.
    Minus,
    /// The digits before a point.
    Whole,
    /// A point has come, and a digit must follow.
    Point,
    /// The digits after a point.
    Fraction,
    /// The letter of an exponent has come.
    Mark,
    /// The letter and the sign of an exponent have come.
    MarkSign,
    /// The digits of an exponent.
    Exponent,
    /// The `i` of `inf`.
    I,
    /// The `in` of `inf`.
    In,
    /// The `n` of `nan`.
    N,
    /// The `na` of `nan`.
    Na,
    /// `inf` or `nan`.
    Named,
}

impl DoubleStage {
    /// Returns the stage after one more byte, or `None` if no double has this byte there.
    #[inline]
    pub fn after(self, byte: u8) -> Option<DoubleStage>
        ensures { result ≡ stage_after self byte }
    {
        match self {
            DoubleStage::Begun => match byte {
                b'0'..=b'9' => Some(DoubleStage::Whole),
                b'+' => Some(DoubleStage::Plus),
                b'-' => Some(DoubleStage::Minus),
                _ => after_name(byte),
            },
            DoubleStage::Plus => digit_to(DoubleStage::Whole, byte),
            DoubleStage::Minus => match byte {
                b'0'..=b'9' => Some(DoubleStage::Whole),
                _ => after_name(byte),
            },
            DoubleStage::Whole => match byte {
                b'0'..=b'9' => Some(DoubleStage::Whole),
                b'.' => Some(DoubleStage::Point),
                _ => after_number(byte),
            },
            DoubleStage::Point => digit_to(DoubleStage::Fraction, byte),
            DoubleStage::Fraction => match byte {
                b'0'..=b'9' => Some(DoubleStage::Fraction),
                _ => after_number(byte),
            },
            DoubleStage::Mark => match byte {
                b'0'..=b'9' => Some(DoubleStage::Exponent),
                b'+' | b'-' => Some(DoubleStage::MarkSign),
                _ => None,
            },
            DoubleStage::MarkSign | DoubleStage::Exponent => {
                digit_to(DoubleStage::Exponent, byte)
            }
            DoubleStage::I => only(b'n', DoubleStage::In, byte),
            DoubleStage::In => only(b'f', DoubleStage::Named, byte),
            DoubleStage::N => only(b'a', DoubleStage::Na, byte),
            DoubleStage::Na => only(b'n', DoubleStage::Named, byte),
            DoubleStage::Named => None,
        }
    }

    /// Returns the least number of bytes that complete a double: 0 where it may end.
    #[inline]
    pub fn needs(self) -> u64
        ensures value { result ≡ stage_needs self }
        ensures few { result ≤ 2 }
    {
        match self {
            DoubleStage::Whole
            | DoubleStage::Fraction
            | DoubleStage::Exponent
            | DoubleStage::Named => 0,
            DoubleStage::I | DoubleStage::N => 2,
            _ => 1,
        }
    }
}

/// Returns the stage after a digit, and `None` for any other byte.
#[inline]
fn digit_to(stage: DoubleStage, byte: u8) -> Option<DoubleStage>
    ensures { result ≡ digit_or stage None byte }
{
    match byte {
        b'0'..=b'9' => Some(stage),
        _ => None,
    }
}

/// Returns the stage after the first letter of a name, and `None` for any other byte.
#[inline]
fn after_name(byte: u8) -> Option<DoubleStage>
    ensures { result ≡ after_name byte }
{
    match byte {
        b'i' => Some(DoubleStage::I),
        b'n' => Some(DoubleStage::N),
        _ => None,
    }
}

/// Returns the stage after the letter of an exponent, and `None` for any other byte.
#[inline]
fn after_number(byte: u8) -> Option<DoubleStage>
    ensures { result ≡ after_number byte }
{
    match byte {
        b'e' | b'E' => Some(DoubleStage::Mark),
        _ => None,
    }
}

/// Returns the stage after this byte alone, and `None` for any other byte.
#[inline]
fn only(expected: u8, stage: DoubleStage, byte: u8) -> Option<DoubleStage>
    ensures { result ≡ only expected stage byte }
{
    if byte == expected { Some(stage) } else { None }
}
