//! What is known of a transaction's statements.
ghost use Rattle.std.specs.Prelude.{◌≡◌, ◌-◌, ◌≤◌, length, map, slice_get, OnOk};
ghost use Rattle.hr_moves.specs.Changes.{map_from, change_at};
ghost use Rattle.hr_base.specs.Lists.{numbered};
ghost use Rattle.hr_ledger.specs.Kept.{plain_script, places_in, session_in, and_place, HasRoom};

use hr_engine::TxnId;
use std::alloc::AllocError;

/// A transaction's session, and where its statements stand among all statements, in their order.
pub struct Script {
    pub session: u32,
    pub statements: Vec<usize>,
}

impl Drop for Script {
    fn drop(self) {
        let Script {
            session: _session,
            statements: _statements,
        } = self;
    }
}

/// The session of a transaction, if there is such a transaction.
pub fn session_of(scripts: &[Script], txn: TxnId) -> Option<u32>
    ensures { result ≡ numbered (map session_in (map plain_script scripts.now)) txn }
{
    if txn == 0 {
        return None;
    }
    match scripts.get((txn - 1) as usize) {
        Some(script) => Some(script.session),
        None => None,
    }
}

/// Where the statement with this index, from 1, of a transaction stands.
pub fn statement_place(scripts: &[Script], txn: TxnId, index: u32) -> Option<usize>
    ensures { result ≡ numbered (places_in (map plain_script scripts.now) txn) index }
{
    if txn == 0 || index == 0 {
        return None;
    }
    match scripts.get((txn - 1) as usize) {
        Some(script) => place_at(&script.statements, index - 1),
        None => None,
    }
}

fn place_at(places: &[usize], at: u32) -> Option<usize>
    ensures { result ≡ slice_get places.now at }
{
    match places.get(at as usize) {
        Some(place) => Some(*place),
        None => None,
    }
}

/// Keeps a place for one statement more of a transaction.
pub fn make_room(scripts: &mut Vec<Script>, txn: TxnId) -> Result<(), AllocError>
    requires first { 1 ≤ txn }
    requires last { txn ≤ length scripts.old.items }
    ensures same { map plain_script scripts.new.items ≡ map plain_script scripts.old.items }
    ensures room { OnOk result (HasRoom scripts.new.items (txn - 1)) }
{
    let place = (txn - 1) as usize;
    let script = &mut scripts[place];
    script.statements.reserve(1)?;
    Ok(())
}

/// The next statement of a transaction, which has its place, stands here.
pub fn add_place(scripts: &mut Vec<Script>, txn: TxnId, at: usize)
    requires first { 1 ≤ txn }
    requires last { txn ≤ length scripts.old.items }
    requires room { HasRoom scripts.old.items (txn - 1) }
    ensures { map plain_script scripts.new.items ≡ map_from (change_at txn (and_place at)) 1 (map plain_script scripts.old.items) }
{
    let place = (txn - 1) as usize;
    let script = &mut scripts[place];
    script.statements.push_reserved(at);
}
