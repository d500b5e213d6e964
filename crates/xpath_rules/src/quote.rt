//! The quotes of a literal.

ghost use Rattle.std.specs.Prelude.{◌≡◌};

/// Which of the two quotes encloses a literal (XPath 1.0, 3.7).
#[derive(Clone, Copy)]
pub enum Quote {
    /// `"`
    Double,
    /// `'`
    Single,
}

impl Quote {
    ghost use Rattle.xpath_rules.specs.Grammar.{quote_byte};

    /// The byte of the quote.
    pub fn byte(self) -> u8
        ensures { result ≡ quote_byte self }
    {
        match self {
            Quote::Double => b'"',
            Quote::Single => b'\'',
        }
    }
}
