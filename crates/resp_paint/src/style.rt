//! How text is printed.

ghost use Rattle.std.specs.Prelude.{◌≡◌};
ghost use Rattle.resp_paint.specs.Paints.{is_plain_style};

/// How a [`Painted`](crate::Painted) sink prints text.
#[derive(Clone, Copy, Debug, PartialEq, Eq)]
pub struct Style {
    /// Whether kinds of values have colors.
    pub colors: bool,
    /// Whether printable characters that are not ASCII are printed as they are.
    pub utf8: bool,
}

impl Style {
    /// The text as it is.
    pub const PLAIN: Style = Style {
        colors: false,
        utf8: false,
    };

    /// Returns whether text is printed as it is.
    pub(crate) fn is_plain(self) -> bool
        ensures { result ≡ is_plain_style self }
    {
        !self.colors && !self.utf8
    }
}
