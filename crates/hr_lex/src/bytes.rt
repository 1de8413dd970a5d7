//! The classes of bytes, and how far a class reaches.

ghost use Rattle.std.specs.Prelude.{◌≡◌, ◌≤◌, length};
ghost use Rattle.std.specs.List.{prefix_len};
ghost use Rattle.hr_lex.specs.Bytes as spec;

pub fn is_blank(b: u8) -> bool
    ensures { result ≡ spec.is_blank b }
{
    b == b' ' || b == b'\t'
}

pub fn is_digit(b: u8) -> bool
    ensures { result ≡ spec.is_digit b }
{
    b'0' <= b && b <= b'9'
}

/// Whether a name may begin with the byte.
pub fn is_letter(b: u8) -> bool
    ensures { result ≡ spec.is_letter b }
{
    (b'A' <= b && b <= b'Z') || (b'a' <= b && b <= b'z') || b == b'_'
}

/// Whether a name may go on with the byte.
pub fn is_name_byte(b: u8) -> bool
    ensures { result ≡ spec.is_name_byte b }
{
    is_letter(b) || is_digit(b)
}

/// How many bytes at the front a name may go on with.
pub fn name_len(bytes: &[u8]) -> usize
    ensures value { result ≡ prefix_len spec.is_name_byte bytes.now }
    ensures within { result ≤ length bytes.now }
{
    let mut len = 0;
    while len < bytes.len() && is_name_byte(bytes[len]) {
        len += 1;
    }
    len
}

/// How many digits stand at the front.
pub fn digits_len(bytes: &[u8]) -> usize
    ensures value { result ≡ prefix_len spec.is_digit bytes.now }
    ensures within { result ≤ length bytes.now }
{
    let mut len = 0;
    while len < bytes.len() && is_digit(bytes[len]) {
        len += 1;
    }
    len
}
