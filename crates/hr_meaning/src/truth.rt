/// What a condition is on a row or a pair of rows. A comparison with NULL is neither true nor false.
#[derive(Clone, Copy, PartialEq, Eq, Debug)]
pub enum Truth {
    True,
    False,
    Unknown,
}
