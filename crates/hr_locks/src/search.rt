//! The search for the cycle that a request would close.
//!
//! It goes by layers: from the asker to those in its way, from these to those that they wait for, and so on. Each that is
//! found is led on once, in the order of finding, so that each wait is read once. The first that waits for the asker closes
//! the cycle that is told: within a layer the order of finding is the dictionary order of the least routes. Those that were
//! found stand in ascending order too, so that a name is looked for in the time of a logarithm.
ghost use Rattle.std.specs.Prelude.{◌≡◌, ◌<◌, ℕ, List, [], ◌∷◌, false, length, reverse, get_or, IfOk, OnOk, MatchOption, IsTrue};
ghost use Rattle.hr_base.specs.Lists.{has, is_ascending};
ghost use Rattle.hr_locks.specs.Cycles.{closes, IsToldCycle};
ghost use Rattle.hr_locks.specs.Waits.{wait_in, wait_seen, next_in};
ghost use Rattle.hr_locks.specs.Searches.{with_link, led_on, routes, IsLinked, AreFound};

use crate::TxnId;
use crate::conflicts::{add, place_of, stands_at};
use crate::wait::Wait;
use std::alloc::{AllocError, Global};

/// A transaction that was found, and the place of the one that waits for it.
#[derive(Clone, Copy)]
pub struct Link {
    pub txn: TxnId,
    pub by: Option<usize>,
}

/// The cycle that is told if the asker is to wait for these holders, with the asker first; or None if no cycle closes.
/// The wait of the one that was granted a request last doesn't count.
pub fn told_cycle(
    alloc: Global,
    waits: &[Wait],
    granted: Option<TxnId>,
    asker: TxnId,
    holders: &[TxnId],
) -> Result<Option<Vec<TxnId>>, AllocError>
    requires ascending { IsTrue (is_ascending holders.now) }
    requires others { has holders.now asker ≡ false }
    ensures { IfOk result (λ told. MatchOption told ((path : List ℕ) → closes (has holders.now) (wait_seen granted waits.now) asker path ≡ false) (λ cycle. (path : List ℕ) × (cycle.items ≡ asker ∷ path) × IsToldCycle (has holders.now) (wait_seen granted waits.now) asker path)) }
{
    let mut queue = Vec::new(alloc);
    queue.push(Link {
        txn: asker,
        by: None,
    })?;
    let mut found = Vec::new(alloc);
    found.push(asker)?;
    let mut at = 0;
    'queue: while at < queue.len() {
        let link = link_at(&queue, at);
        let names = next_of(waits, granted, asker, holders, link.txn);
        if waits_for(names, asker) {
            return Ok(Some(cycle_to(alloc, &queue, at)?));
        }
        lead_on(&mut queue, &mut found, names, at)?;
        at += 1;
    }
    Ok(None)
}

fn link_at(queue: &[Link], at: usize) -> Link
    requires { at < length queue.now }
    ensures { result ≡ get_or queue.now at result }
{
    queue[at]
}

// Whom a transaction waits for, where the asker waits for the holders.
fn next_of<'a>(
    waits: &'a [Wait],
    granted: Option<TxnId>,
    asker: TxnId,
    holders: &'a [TxnId],
    txn: TxnId,
) -> &'a [TxnId]
    requires { IsTrue (is_ascending holders.now) }
    ensures names { result.now ≡ next_in (wait_seen granted waits.now) asker holders.now txn }
    ensures ascending { IsTrue (is_ascending result.now) }
{
    if txn == asker {
        return holders;
    }
    if let Some(last) = granted {
        if last == txn {
            return &[];
        }
    }
    wait_of(waits, txn)
}

/// Whom a transaction waits for.
pub fn wait_of(waits: &[Wait], txn: TxnId) -> &[TxnId]
    ensures names { result.now ≡ wait_in waits.now txn }
    ensures ascending { IsTrue (is_ascending result.now) }
{
    'waits: for wait in waits {
        if wait.txn == txn {
            return &wait.names;
        }
    }
    &[]
}

fn waits_for(names: &[TxnId], txn: TxnId) -> bool
    ensures { result ≡ has names.now txn }
{
    names.iter().any(|name| *name == txn)
}

// Puts those that weren't found before at the end of the queue.
fn lead_on(
    queue: &mut Vec<Link>,
    found: &mut Vec<TxnId>,
    names: &[TxnId],
    at: usize,
) -> Result<(), AllocError>
    requires { AreFound found.old.items queue.old.items }
    ensures queue { OnOk result (queue.new.items ≡ led_on at names.now queue.old.items) }
    ensures found { OnOk result (AreFound found.new.items queue.new.items) }
{
    let mut next = 0;
    'names: for name in names {
        next = find(queue, found, *name, at, next)?;
    }
    Ok(())
}

// Finds a transaction, which may stand at a place among those that were found; gives the place behind it. Names come in
// ascending order, so the place behind one is often that of the next.
fn find(
    queue: &mut Vec<Link>,
    found: &mut Vec<TxnId>,
    txn: TxnId,
    at: usize,
    next: usize,
) -> Result<usize, AllocError>
    requires { AreFound found.old.items queue.old.items }
    ensures queue { OnOk result (queue.new.items ≡ with_link at txn queue.old.items) }
    ensures found { OnOk result (AreFound found.new.items queue.new.items) }
{
    if stands_at(found, next, txn) {
        return Ok(next + 1);
    }
    find_once(queue, found, txn, at)?;
    Ok(place_of(found, txn) + 1)
}

fn find_once(
    queue: &mut Vec<Link>,
    found: &mut Vec<TxnId>,
    txn: TxnId,
    at: usize,
) -> Result<(), AllocError>
    requires { AreFound found.old.items queue.old.items }
    ensures queue { OnOk result (queue.new.items ≡ with_link at txn queue.old.items) }
    ensures found { OnOk result (AreFound found.new.items queue.new.items) }
{
    let is_new = add(found, txn)?;
    if is_new {
        queue.push(Link { txn, by: Some(at) })?;
    }
    Ok(())
}

// The route to the one at this place, from the asker on.
fn cycle_to(alloc: Global, queue: &[Link], at: usize) -> Result<Vec<TxnId>, AllocError>
    requires within { at < length queue.now }
    requires linked { IsLinked queue.now }
    ensures { IfOk result (λ cycle. cycle.items ≡ reverse (get_or (routes queue.now) at [])) }
{
    let mut cycle = way_back(alloc, queue, at)?;
    cycle.reverse();
    Ok(cycle)
}

// The route to the one at this place, back to the asker.
fn way_back(alloc: Global, queue: &[Link], at: usize) -> Result<Vec<TxnId>, AllocError>
    requires within { at < length queue.now }
    requires linked { IsLinked queue.now }
    ensures { IfOk result (λ way. way.items ≡ get_or (routes queue.now) at []) }
{
    let mut way = Vec::new(alloc);
    let mut next = Some(at);
    'way: while let Some(here) = next {
        let link = link_at(queue, here);
        way.push(link.txn)?;
        next = link.by;
    }
    Ok(way)
}
