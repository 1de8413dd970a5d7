//! The store.
ghost use Rattle.std.specs.BTreeMap.{IsOrdered};
ghost use Rattle.std.proofs.Props.{props};
ghost use Rattle.hr_store.specs.Places.{place_cmp};
ghost use Rattle.hr_store.specs.Cells.{IsListed};

use crate::cell::TxnId;
use crate::cells::{Cells, are_in_order};
use crate::changes::{end_all, prepare_keys, prepare_rows, write_keys, write_rows};
use crate::ending::Ending;
use crate::load::load_tables;
use crate::place::Place;
use crate::scan::{committed_rows, keys_seen};
use crate::written::{Written, first_of};
use hr_rel::{Row, Rows, Seq};
use std::alloc::{AllocError, Global};
use std::collections::BTreeMap;

/// The rows of a database, by table and key: beside each committed row at most one pending one, of a transaction that
/// hasn't ended.
///
/// Contracts see it by `cell_at`: what stands at each key of each table.
pub struct Store {
    tables: u32,
    cells: Cells,
    written: Written,
    handed: u64,
    ghost listed: { IsListed cells written },
    ghost sorted: { IsOrdered place_cmp cells } by { Prim.hlevel props },
}

impl Drop for Store {
    fn drop(self) {
        let Store {
            tables: _tables,
            cells: _cells,
            written: _written,
            handed: _handed,
        } = self;
    }
}

impl Store {
    ghost use Rattle.std.specs.Prelude.{◌≡◌, ◌<◌, ◌+◌, ◌&&◌, ℕ, ℤ, true, int_le, is_some, length, IsSome, IfOk, OnOk, OnErr};
    ghost use Rattle.std.specs.Ordering.{nat_cmp};
    ghost use Rattle.std.specs.BTreeMap.{get, btree_map_len};
    ghost use Rattle.std.specs.Option.{option_map};
    ghost use Rattle.hr_store.specs.declared.ending.Ending.TheVariants.{Commit, Rollback};
    ghost use Rattle.hr_base.specs.Counters.{shown};
    ghost use Rattle.hr_store.specs.Cells.{seen_in, ended, forgotten};
    ghost use Rattle.hr_store.specs.Scans.{Rising};
    ghost use Rattle.hr_store.specs.Store.{cell_at, tables_of, handed_of, start_cell, put_cell, remove_cell, is_key_in, dumped};

    /// A store of these rows, all of them committed. An error is want of memory.
    pub fn new(alloc: Global, rows: &Rows) -> Result<Store, AllocError>
        ensures cells { IfOk result (λ store. (t : ℕ) (k : ℤ) → cell_at store t k ≡ start_cell rows.now t k) }
        ensures tables { IfOk result (λ store. tables_of store ≡ length rows.now) }
        ensures handed { IfOk result (λ store. handed_of store ≡ 0) }
    {
        let mut cells = BTreeMap::new(alloc);
        let tables = load_tables(alloc, &mut cells, rows.as_slice())?;
        are_in_order(&cells);
        Ok(Store {
            tables,
            cells,
            written: BTreeMap::new(alloc),
            handed: 0,
        })
    }

    /// The row that a transaction sees at a key: its own pending one first. Takes no memory.
    pub fn get(&self, txn: TxnId, table: u32, key: i64) -> Option<&Row>
        ensures { option_map (λ row. row.now) result ≡ seen_in txn (cell_at self.now table key) }
    {
        let place = Place::new(table, key);
        match self.cells.get(&place) {
            Some(cell) => cell.seen(txn),
            None => None,
        }
    }

    /// The keys from `low` to `high` at which a transaction sees a row, in ascending order. An error is want of memory, and
    /// then nothing has changed.
    pub fn keys(
        &mut self,
        alloc: Global,
        txn: TxnId,
        table: u32,
        low: i64,
        high: i64,
    ) -> Result<Vec<i64>, AllocError>
        requires { int_le low high ≡ true }
        ensures keys { IfOk result (λ keys. (k : ℤ) → is_key_in table keys.items k ≡ (int_le low k && int_le k high && is_some (seen_in txn (cell_at self.old table k)))) }
        ensures rising { IfOk result (λ keys. Rising keys.items) }
        ensures handed { IfOk result (λ keys. handed_of self.new ≡ shown (handed_of self.old + length keys.items)) }
        ensures cells { (t : ℕ) (k : ℤ) → cell_at self.new t k ≡ cell_at self.old t k }
        ensures tables { tables_of self.new ≡ tables_of self.old }
        ensures err { OnErr result (handed_of self.new ≡ handed_of self.old) }
    {
        let keys = keys_seen(alloc, &self.cells, txn, table, low, high)?;
        self.handed = self.handed.saturating_add(keys.len() as u64);
        Ok(keys)
    }

    /// How many keys were handed out since the start; it stands still at its last number. Takes no memory.
    pub fn handed(&self) -> u64
        ensures { result ≡ handed_of self.now }
    {
        self.handed
    }

    /// The committed rows of each table, in ascending order of their keys, whatever is pending. An error is want of memory.
    pub fn dump(&self, alloc: Global) -> Result<Rows, AllocError>
        ensures { IfOk result (λ rows. rows ≡ dumped self.now) }
    {
        let mut tables = Seq::new(alloc);
        'tables: for table in 0..self.tables {
            tables.push(committed_rows(alloc, &self.cells, table)?)?;
        }
        Ok(tables)
    }

    /// Puts rows into a table, each at its key, for one transaction alone until it commits. An error is want of memory,
    /// and then nothing has changed.
    pub fn put(
        &mut self,
        alloc: Global,
        txn: TxnId,
        table: u32,
        rows: Vec<Row>,
    ) -> Result<(), AllocError>
        ensures put { OnOk result ((t : ℕ) (k : ℤ) → cell_at self.new t k ≡ put_cell txn table rows.items t k (cell_at self.old t k)) }
        ensures err { OnErr result ((t : ℕ) (k : ℤ) → cell_at self.new t k ≡ cell_at self.old t k) }
        ensures tables { tables_of self.new ≡ tables_of self.old }
        ensures handed { handed_of self.new ≡ handed_of self.old }
    {
        prepare_rows(alloc, &mut self.cells, &mut self.written, txn, table, &rows)?;
        write_rows(&mut self.cells, txn, table, rows);
        Ok(())
    }

    /// Removes the rows at these keys of a table, and puts rows into it, for one transaction alone until it commits. An error is
    /// want of memory, and then nothing has changed.
    pub fn change(
        &mut self,
        alloc: Global,
        txn: TxnId,
        table: u32,
        rows: Vec<Row>,
        gone: &[i64],
    ) -> Result<(), AllocError>
        ensures changed { OnOk result ((t : ℕ) (k : ℤ) → cell_at self.new t k ≡ put_cell txn table rows.items t k (remove_cell txn table gone.now t k (cell_at self.old t k))) }
        ensures err { OnErr result ((t : ℕ) (k : ℤ) → cell_at self.new t k ≡ cell_at self.old t k) }
        ensures tables { tables_of self.new ≡ tables_of self.old }
        ensures handed { handed_of self.new ≡ handed_of self.old }
    {
        prepare_rows(alloc, &mut self.cells, &mut self.written, txn, table, &rows)?;
        prepare_keys(alloc, &mut self.cells, &mut self.written, txn, table, gone)?;
        write_keys(&mut self.cells, txn, table, gone);
        write_rows(&mut self.cells, txn, table, rows);
        Ok(())
    }

    /// Removes the rows at these keys of a table, for one transaction alone until it commits. An error is want of memory,
    /// and then nothing has changed.
    pub fn remove(
        &mut self,
        alloc: Global,
        txn: TxnId,
        table: u32,
        keys: &[i64],
    ) -> Result<(), AllocError>
        ensures removed { OnOk result ((t : ℕ) (k : ℤ) → cell_at self.new t k ≡ remove_cell txn table keys.now t k (cell_at self.old t k)) }
        ensures err { OnErr result ((t : ℕ) (k : ℤ) → cell_at self.new t k ≡ cell_at self.old t k) }
        ensures tables { tables_of self.new ≡ tables_of self.old }
        ensures handed { handed_of self.new ≡ handed_of self.old }
    {
        prepare_keys(alloc, &mut self.cells, &mut self.written, txn, table, keys)?;
        write_keys(&mut self.cells, txn, table, keys);
        Ok(())
    }

    /// What a transaction wrote is committed. Takes no memory, and time in what it wrote.
    pub fn commit(&mut self, txn: TxnId)
        ensures cells { (t : ℕ) (k : ℤ) → cell_at self.new t k ≡ ended Commit txn (cell_at self.old t k) }
        ensures tables { tables_of self.new ≡ tables_of self.old }
        ensures handed { handed_of self.new ≡ handed_of self.old }
    {
        self.end(txn, Ending::Commit);
    }

    /// What a transaction wrote goes. Takes no memory, and time in what it wrote.
    pub fn rollback(&mut self, txn: TxnId)
        ensures cells { (t : ℕ) (k : ℤ) → cell_at self.new t k ≡ ended Rollback txn (cell_at self.old t k) }
        ensures tables { tables_of self.new ≡ tables_of self.old }
        ensures handed { handed_of self.new ≡ handed_of self.old }
    {
        self.end(txn, Ending::Rollback);
    }

    /// Everything pending goes. Takes no memory, and time in what was pending.
    pub fn forget(&mut self)
        ensures cells { (t : ℕ) (k : ℤ) → cell_at self.new t k ≡ forgotten (cell_at self.old t k) }
        ensures tables { tables_of self.new ≡ tables_of self.old }
        ensures handed { handed_of self.new ≡ handed_of self.old }
    {
        'txns: while let Some(txn) = first_of(&self.written) {
            self.end(txn, Ending::Rollback);
        }
    }

    fn end(&mut self, txn: TxnId, ending: Ending)
        ensures cells { (t : ℕ) (k : ℤ) → cell_at self.new t k ≡ ended ending txn (cell_at self.old t k) }
        ensures tables { tables_of self.new ≡ tables_of self.old }
        ensures handed { handed_of self.new ≡ handed_of self.old }
        ensures fewer { IsSome (get nat_cmp self.old.written txn) → btree_map_len self.new.written < btree_map_len self.old.written }
    {
        if let Some(places) = self.written.remove(&txn) {
            end_all(&mut self.cells, places.as_slice(), txn, ending);
        }
    }
}
