ghost use Rattle.std.specs.Prelude.{◌≡◌, ℕ, ◌≤◌, ◌↔◌, List, ◌++◌, length, take, drop, true, IsSome, IfSome, IsTrue, refl, Some, nat_eq};
ghost use Rattle.std.specs.List.{list_all};
ghost use Rattle.std.specs.Ordering.{nat_cmp, as_partial_cmp};
ghost use Rattle.std.specs.Cmp.{partial_equiv_from_equiv};
ghost use Rattle.std.specs.Cmp.Lexicographic.{pointwise, nat_list_eq_equiv, slice_cmp, texts_po, texts_ties, nat_list_cmp_total};
ghost use Rattle.hr_base.specs.Bytes.{is_printable};
ghost use Rattle.hr_rel.specs.Printable.{IsText};

use hr_base::is_printable;
use hr_base::limits::MAX_TEXT_BYTES;
use std::cmp::Ordering;
use std::marker::Model;
use std::{fmt, str};

/// A text of at most 64 bytes, each printable ASCII (0x20 to 0x7E). It serves as the text value of a row, and as the name of
/// a table or a column, where fewer bytes are allowed. It lies in the value itself, so it is `Copy`.
/// Texts are ordered and equal by their bytes.
#[derive(Clone, Copy)]
pub struct Name {
    bytes: [u8; MAX_TEXT_BYTES],
    len: usize,
}

// The bytes behind the text are 0, so that texts of the same bytes are the same value.
impl Model for Name {
    ghost use Rattle.std.specs.Prelude.{List, ℕ, take};

    ghost Value = { List ℕ };

    ghost use Rattle.hr_rel.specs.Name.{IsPadded, padded_name, padded_again};

    ghost view = { λ a. take a.len a.bytes };

    ghost invariant = { IsPadded };

    ghost inverse = { padded_name };

    ghost inverse_ok = { padded_again };
}

impl Name {
    /// The text of these bytes, or None where they are more than 64 or not all printable.
    pub fn new(bytes: &[u8]) -> Option<Name>
        ensures text { IsSome result ↔ IsText bytes.now }
        ensures bytes { IfSome result (λ name. name ≡ bytes.now) }
    {
        if bytes.len() > MAX_TEXT_BYTES || !all_printable(bytes) {
            return None;
        }
        let mut padded = [0u8; MAX_TEXT_BYTES];
        copy_front(&mut padded, bytes);
        Some(Name {
            bytes: padded,
            len: bytes.len(),
        })
    }

    /// The text's bytes.
    pub fn bytes(&self) -> &[u8]
        ensures bytes { result.now ≡ self.now }
        ensures text { IsText self.now }
    {
        &self.bytes[..self.len]
    }
}

fn all_printable(bytes: &[u8]) -> bool
    ensures { result ≡ list_all is_printable bytes.now }
{
    bytes.iter().all(|b| is_printable(*b))
}

// Writes `from` over the front of `to`.
fn copy_front(to: &mut [u8], from: &[u8])
    requires { length from.now ≤ length to.old }
    ensures { to.new ≡ from.now ++ drop (length from.now) to.old }
{
    let front = &mut to[..from.len()];
    front.copy_from_slice(from);
}

impl PartialEq for Name {
    ghost eq = { pointwise nat_eq };

    ghost laws = { partial_equiv_from_equiv nat_list_eq_equiv };

    fn eq(&self, other: &Self) -> bool {
        self.bytes() == other.bytes()
    }
}

impl Eq for Name {
    ghost laws = { nat_list_eq_equiv };
}

impl PartialOrd for Name {
    ghost partial_cmp = { as_partial_cmp (slice_cmp nat_cmp) };

    ghost laws = { texts_po };

    fn partial_cmp(&self, other: &Self) -> Option<Ordering> {
        Some(self.cmp(other))
    }
}

impl Ord for Name {
    ghost cmp = { slice_cmp nat_cmp };

    ghost total = { nat_list_cmp_total };

    ghost matches_partial_cmp = { λ a b. refl };

    ghost matches_eq = { texts_ties };

    fn cmp(&self, other: &Self) -> Ordering {
        self.bytes().cmp(other.bytes())
    }
}

impl fmt::Debug for Name {
    fn fmt<W: fmt::Write>(&self, f: &mut fmt::Formatter<W>) -> fmt::Result {
        match str::from_utf8(self.bytes()) {
            Ok(text) => write!(f, "{text:?}"),
            Err(_) => Err(fmt::Error),
        }
    }
}
