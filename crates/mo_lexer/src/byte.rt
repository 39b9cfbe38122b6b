//! What a byte may be part of.
ghost use Rattle.std.specs.Prelude.{◌≡◌};
ghost use Rattle.mo_lexer.specs.Bytes.{is_separator, is_letter, is_digit, is_word_byte, is_in_line, is_exponent_letter};

/// A space, a tab or a line end.
pub(crate) fn separator(byte: u8) -> bool
    ensures { result ≡ is_separator byte }
{
    matches!(byte, b' ' | b'\t' | b'\n' | b'\r')
}

/// A letter or `_`.
pub(crate) fn letter(byte: u8) -> bool
    ensures { result ≡ is_letter byte }
{
    byte.is_ascii_alphabetic() || byte == b'_'
}

/// A decimal digit.
pub(crate) fn digit(byte: u8) -> bool
    ensures { result ≡ is_digit byte }
{
    byte.is_ascii_digit()
}

/// A letter, a digit or `_`.
pub(crate) fn word_byte(byte: u8) -> bool
    ensures { result ≡ is_word_byte byte }
{
    letter(byte) || digit(byte)
}

/// Any byte but the end of a line.
pub(crate) fn in_line(byte: u8) -> bool
    ensures { result ≡ is_in_line byte }
{
    byte != b'\n'
}

/// `e` or `E`.
pub(crate) fn exponent_letter(byte: u8) -> bool
    ensures { result ≡ is_exponent_letter byte }
{
    byte == b'e' || byte == b'E'
}
