//! What the bytes of a text are for.
ghost use Rattle.std.specs.Prelude.{◌≡◌};
ghost use Rattle.ordered_json.specs.Grammar as grammar;
ghost use Rattle.ordered_json.specs.Faults as faults;

/// Whether the byte is white space (RFC 8259, section 2).
pub fn is_blank(byte: u8) -> bool
    ensures { result ≡ grammar.is_blank byte }
{
    byte == b' ' || byte == b'\t' || byte == b'\n' || byte == b'\r'
}

/// Whether the byte is a decimal digit.
pub fn is_decimal(byte: u8) -> bool
    ensures { result ≡ grammar.is_decimal byte }
{
    byte.is_ascii_digit()
}

/// Whether a number that goes on with the byte has a fraction or an exponent (RFC 8259, section 6).
pub fn is_mark(byte: u8) -> bool
    ensures { result ≡ faults.is_mark byte }
{
    byte == b'.' || byte == b'e' || byte == b'E'
}

/// The code of the character that a backslash and the byte stand for, and 0 where they stand for
/// none (RFC 8259, section 7).
pub fn escape_value(byte: u8) -> u8
    ensures { result ≡ grammar.escape_value byte }
{
    match byte {
        b'"' | b'\\' | b'/' => byte,
        b'b' => b'\x08',
        b'f' => b'\x0C',
        b'n' => b'\n',
        b'r' => b'\r',
        b't' => b'\t',
        _ => 0,
    }
}
