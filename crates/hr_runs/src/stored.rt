//! A store of one table, and what is asked of it.
ghost use Rattle.std.specs.Prelude.{◌≡◌, true, int_le};

use crate::numbers::numbers_of;
use hr_rel::{Row, Rows, Seq, Table, Value};
use hr_store::{Store, TxnId};
use std::alloc::{AllocError, Global};

#[derive(Drop)]
pub struct Stored {
    store: Store,
}

impl Stored {
    /// A store in which the rows of these keys are committed, each with ten times its key.
    pub fn new(alloc: Global, keys: &[u32]) -> Result<Stored, AllocError> {
        let mut table: Table = Seq::new(alloc);
        for key in keys {
            let key = i64::from(*key);
            table.push(row(alloc, key, key.saturating_mul(10))?)?;
        }
        let mut rows: Rows = Seq::new(alloc);
        rows.push(table)?;
        Ok(Stored {
            store: Store::new(alloc, &rows)?,
        })
    }

    /// Makes a line's call, and tells what came of it.
    pub fn call(&mut self, alloc: Global, out: &mut String, line: &str) -> Result<(), AllocError> {
        let (word, rest) = line.split_once(' ').unwrap_or((line, ""));
        let numbers = numbers_of(alloc, rest)?;
        let numbers = numbers.as_slice();
        match (word, numbers) {
            ("handed", []) => write!(out, "{}", self.store.handed()),
            ("keys", [txn]) => self.push_keys(alloc, out, u64::from(*txn)),
            ("get", [txn, key]) => self.push_row(out, u64::from(*txn), i64::from(*key)),
            ("dump", []) => self.push_rows(alloc, out),
            _ => {
                self.change(alloc, word, numbers)?;
                out.push_str("done")
            }
        }
    }

    fn change(&mut self, alloc: Global, word: &str, numbers: &[u32]) -> Result<(), AllocError> {
        match (word, numbers) {
            ("new", keys) => *self = Stored::new(alloc, keys)?,
            ("put", [txn, key, number]) => {
                let mut rows = Vec::new(alloc);
                rows.push(row(alloc, i64::from(*key), i64::from(*number))?)?;
                self.store.put(alloc, u64::from(*txn), 0, rows)?;
            }
            ("remove", [txn, key]) => {
                self.store
                    .remove(alloc, u64::from(*txn), 0, &[i64::from(*key)])?;
            }
            ("commit", [txn]) => self.store.commit(u64::from(*txn)),
            ("rollback", [txn]) => self.store.rollback(u64::from(*txn)),
            ("forget", []) => self.store.forget(),
            _ => {}
        }
        Ok(())
    }

    // The keys from 1 to 9 at which a transaction sees a row.
    fn push_keys(&mut self, alloc: Global, out: &mut String, txn: TxnId) -> Result<(), AllocError> {
        let keys = self.store.keys(alloc, txn, 0, 1, 9)?;
        write!(out, "{:?}", keys.as_slice())
    }

    fn push_row(&self, out: &mut String, txn: TxnId, key: i64) -> Result<(), AllocError> {
        match self.store.get(txn, 0, key) {
            Some(row) => write!(out, "{:?}", row.as_slice()),
            None => out.push_str("no row"),
        }
    }

    fn push_rows(&self, alloc: Global, out: &mut String) -> Result<(), AllocError> {
        let tables = self.store.dump(alloc)?;
        for table in tables.as_slice() {
            write!(out, "{} rows", table.len())?;
        }
        Ok(())
    }
}

// A row of a key and a number.
fn row(alloc: Global, key: i64, number: i64) -> Result<Row, AllocError> {
    let mut row = Seq::new(alloc);
    row.push(Value::Int(key))?;
    row.push(Value::Int(number))?;
    Ok(row)
}
