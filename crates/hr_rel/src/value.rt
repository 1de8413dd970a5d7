ghost use Rattle.std.specs.Prelude.{◌≡◌, IfOk};

use crate::{Name, Seq, TryCopy};
use std::alloc::{AllocError, Global};

/// A value of a column. Values are ordered NULL first, then numbers, then texts by their bytes: the order of
/// canonical answers and of grouping. A comparison in a condition knows NULL otherwise.
#[derive(Clone, Copy, Debug, PartialEq, Eq, PartialOrd, Ord)]
pub enum Value {
    Null,
    Int(i64),
    Text(Name),
}

/// The values of one row, in the order of its table's columns.
pub type Row = Seq<Value>;

/// The rows of one table, in ascending order of their keys.
pub type Table = Seq<Row>;

/// The rows of a database, one `Table` for each table of its catalog, in the catalog's order.
pub type Rows = Seq<Table>;

impl TryCopy for Value {
    fn try_copy(&self, _alloc: Global) -> Result<Value, AllocError> {
        Ok(match self {
            Value::Null => Value::Null,
            Value::Int(n) => Value::Int(*n),
            Value::Text(name) => Value::Text(*name),
        })
    }
}
