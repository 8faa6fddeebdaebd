// Classes of bytes that handlers and requests share.

ghost use Rattle.std.specs.Prelude.{◌≡◌};
ghost use Rattle.text_lines.specs.Bytes as spec;

/// Whether a byte stands between words of a line: a space, a tab or a carriage return.
#[inline]
pub fn is_blank(byte: u8) -> bool
    ensures { result ≡ spec.is_blank byte }
{
    byte == b' ' || byte == b'\t' || byte == b'\r'
}

/// Whether a symbol may have a byte: a letter, a digit, `_`, `.`, `-`, `@` or `:`.
#[inline]
pub fn is_symbol_byte(byte: u8) -> bool
    ensures { result ≡ spec.is_symbol_byte byte }
{
    byte.is_ascii_alphanumeric() || matches!(byte, b'_' | b'.' | b'-' | b'@' | b':')
}
