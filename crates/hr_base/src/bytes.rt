//! The classes of bytes.

ghost use Rattle.std.specs.Prelude.{◌≡◌};
ghost use Rattle.hr_base.specs.Bytes.{is_printable};

/// Whether a byte is printable ASCII, 0x20 to 0x7E: what a text value may have, and what may stand within quotes.
pub fn is_printable(byte: u8) -> bool
    ensures { result ≡ is_printable byte }
{
    0x20 <= byte && byte <= 0x7E
}
