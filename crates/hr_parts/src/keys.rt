/// An interval of keys, both ends in it. Where it can be empty it is an `Option`, and None the empty one.
#[derive(Clone, Copy, Debug, PartialEq, Eq)]
pub struct Keys {
    pub low: i64,
    pub high: i64,
}
