//! The calls of the turn lock.
ghost use Rattle.std.specs.Prelude.{◌≡◌, ℕ, ◌+◌, ◌%◌, ◌^◌, ◌<◌, ◌≤◌, ◌++◌, List, [], ◌∷◌, false, true, None, Some, IfOk, IsTrue, MatchBool};
ghost use Rattle.hr_turn.specs.Entries.{Begins, Each, calls_by};
ghost use Rattle.hr_turn.specs.Views.{first_view, with_ticket, inside_at, outside_after, root_after_split, split_off, root_after_join, settled_view};
ghost use Rattle.hr_turn.specs.Steps.{AreBack, TakesTurn};
ghost use Rattle.hr_turn.specs.Passes.{id_of, lock_of, view_of, IsFree, IsWaiting, IsIn};

use crate::kept::Kept;
use crate::pass::{Pass, TurnLock};
use crate::steps::{Draw, Look, Serve, Settle, SplitOff, TakeBack};
use atomic_table::Table;
use crossbeam_utils::Backoff;
use std::alloc::{AllocError, Global};
use std::snapshot::Snapshot;
use std::sync::Wait;

// The two words, and the slot.
const NEXT: usize = 0;

const SERVED: usize = 1;

const VALUE: usize = 0;

impl<S: Kept> TurnLock<S> {
    /// A lock of a value that has no entry yet, and its root.
    pub fn new(alloc: Global, value: S) -> Result<(TurnLock<S>, Pass<S>), AllocError>
    where
        S: Drop,
        requires { S.entries value ≡ [] }
        ensures { IfOk result (λ r. (lock_of r.1 ≡ id_of r.0) × IsFree r.1 × (view_of r.1 ≡ first_view (S.fixed value))) }
    {
        let about = Snapshot::of(&value);
        let mut slots = Vec::with_capacity(alloc, 1)?;
        slots.push(Some(value))?;
        match Table::new(alloc, &[0, 0], slots, &about) {
            Ok((table, seat)) => Ok((TurnLock { table }, Pass { seat })),
            Err(_) => Err(AllocError),
        }
    }

    /// Waits for the pass's turn, and gives the value.
    pub fn enter<R: Wait>(&self, rt: &R, pass: &mut Pass<S>) -> S
        requires lock { lock_of pass.old ≡ id_of self.now }
        requires free { IsFree pass.old }
        ensures lock { lock_of pass.new ≡ lock_of pass.old }
        ensures inside { IsIn pass.new }
        // the list begins with what the pass had seen
        ensures begins { Begins (view_of pass.old).seen (S.entries result) }
        // and its entries in the list are those that it made, each once and in order
        ensures mine { calls_by S.caller (view_of pass.old).number (S.entries result) ≡ (view_of pass.old).mine }
        ensures fixed { S.fixed result ≡ (view_of pass.old).fixed }
        ensures view { (t : ℕ) × (view_of pass.new ≡ inside_at (with_ticket (view_of pass.old) t) (S.entries result)) }
    {
        let ticket = self.draw(pass);
        self.await_turn(rt, pass, ticket);
        self.take_out(pass)
    }

    fn draw(&self, pass: &mut Pass<S>) -> u64
        requires lock { lock_of pass.old ≡ id_of self.now }
        requires free { IsFree pass.old }
        ensures lock { lock_of pass.new ≡ lock_of pass.old }
        ensures waiting { IsWaiting pass.new result }
        ensures view { (t : ℕ) × (view_of pass.new ≡ with_ticket (view_of pass.old) t) }
    {
        self.table.shared.fetch_add::<Draw>(&mut pass.seat, NEXT, 1)
    }

    fn await_turn<R: Wait>(&self, rt: &R, pass: &mut Pass<S>, ticket: u64)
        requires lock { lock_of pass.old ≡ id_of self.now }
        requires waiting { IsWaiting pass.old ticket }
        ensures lock { lock_of pass.new ≡ lock_of pass.old }
        ensures turn { TakesTurn S.entries S.caller S.fixed pass.old.seat.me pass.new.seat.me }
    {
        let pause = Backoff::new();
        'looks: for _ in rt.forever() {
            if self.look(pass, ticket) {
                return;
            }
            pause.snooze();
        }
        unreachable!()
    }

    // Whether it is the pass's turn. Then the slot is the pass's own.
    fn look(&self, pass: &mut Pass<S>, ticket: u64) -> bool
        requires lock { lock_of pass.old ≡ id_of self.now }
        requires waiting { IsWaiting pass.old ticket }
        ensures lock { lock_of pass.new ≡ lock_of pass.old }
        ensures turn { MatchBool result (TakesTurn S.entries S.caller S.fixed pass.old.seat.me pass.new.seat.me) (pass.new.seat.me ≡ pass.old.seat.me) }
    {
        self.table.shared.load::<Look>(&mut pass.seat, SERVED) == ticket
    }

    fn take_out(&self, pass: &mut Pass<S>) -> S
        requires lock { lock_of pass.old ≡ id_of self.now }
        requires slot { (value : S) × (pass.old.seat.me.1 ≡ (0, Some value) ∷ []) }
        ensures lock { lock_of pass.new ≡ lock_of pass.old }
        ensures value { pass.old.seat.me.1 ≡ (0, Some result) ∷ [] }
        ensures left { pass.new.seat.me ≡ (view_of pass.old, (0, None) ∷ []) }
    {
        let held = self.table.shared.exchange(&mut pass.seat, VALUE, None);
        let Some(value) = held else { unreachable!() };
        value
    }

    /// Ends the pass's turn. What the value's list has more than the pass has seen are the pass's entries.
    pub fn leave(&self, pass: &mut Pass<S>, value: S)
        requires lock { lock_of pass.old ≡ id_of self.now }
        requires inside { IsIn pass.old }
        requires fixed { S.fixed value ≡ (view_of pass.old).fixed }
        requires grown { (more : List S.Entry) × (S.entries value ≡ (view_of pass.old).seen ++ more) × Each (λ e. S.caller e ≡ (view_of pass.old).number) more }
        ensures lock { lock_of pass.new ≡ lock_of pass.old }
        ensures free { IsFree pass.new }
        ensures mine { calls_by S.caller (view_of pass.old).number (view_of pass.new).seen ≡ (view_of pass.new).mine }
        ensures view { (more : List S.Entry) × (S.entries value ≡ (view_of pass.old).seen ++ more) × (view_of pass.new ≡ outside_after (view_of pass.old) more) }
    {
        let held = self
            .table
            .shared
            .exchange(&mut pass.seat, VALUE, Some(value));
        let None = held else { unreachable!() };
        self.table
            .shared
            .fetch_add::<Serve>(&mut pass.seat, SERVED, 1);
    }

    /// A new pass, with the next number. It has seen what the root has, and made nothing.
    pub fn split(&self, root: &mut Pass<S>) -> Pass<S>
        requires lock { lock_of root.old ≡ id_of self.now }
        requires root { (view_of root.old).number ≡ 0 }
        requires free { IsFree root.old }
        requires room { (view_of root.old).splits < 2 ^ 32 }
        ensures lock { (lock_of root.new ≡ lock_of root.old) × (lock_of result ≡ lock_of root.old) }
        ensures free { IsFree root.new × IsFree result }
        ensures root { view_of root.new ≡ root_after_split (view_of root.old) }
        ensures given { view_of result ≡ split_off (view_of root.old) }
    {
        let seat = self.table.shared.split_seat::<SplitOff>(&mut root.seat);
        Pass { seat }
    }

    /// Takes a pass back. The root then has seen all that the pass had, and keeps its entries beside its number.
    pub fn join(&self, root: &mut Pass<S>, other: Pass<S>)
        requires lock { (lock_of root.old ≡ id_of self.now) × (lock_of other ≡ id_of self.now) }
        requires root { (view_of root.old).number ≡ 0 }
        requires free { IsFree root.old × IsFree other }
        ensures lock { lock_of root.new ≡ lock_of root.old }
        ensures free { IsFree root.new }
        ensures view { view_of root.new ≡ settled_view (root_after_join (view_of root.old) (view_of other)) }
        ensures seen { Begins (view_of root.old).seen (view_of root.new).seen × Begins (view_of other).seen (view_of root.new).seen }
        ensures mine { calls_by S.caller 0 (view_of root.new).seen ≡ (view_of root.new).mine }
        ensures back { AreBack S.caller (view_of root.new) }
    {
        let Pass { seat } = other;
        self.table
            .shared
            .join_seat::<TakeBack>(&mut root.seat, seat);
        self.table.shared.load::<Settle>(&mut root.seat, SERVED);
    }

    /// The value, once the root has taken back every pass that it split off. Each of its entries is then the root's
    /// or that of one of these.
    pub fn close(self, root: Pass<S>) -> S
        requires lock { lock_of root ≡ id_of self }
        requires root { (view_of root).number ≡ 0 }
        requires all { (view_of root).others ≡ 0 }
        requires free { IsFree root }
        ensures seen { S.entries result ≡ (view_of root).seen }
        ensures fixed { S.fixed result ≡ (view_of root).fixed }
        ensures mine { calls_by S.caller 0 (view_of root).seen ≡ (view_of root).mine }
        ensures back { AreBack S.caller (view_of root) }
        ensures nobody { (number : ℕ) → (view_of root).splits < number → calls_by S.caller number (view_of root).seen ≡ [] }
    {
        let TurnLock { table } = self;
        let Pass { seat } = root;
        let mut closed = table.close_with(seat);
        let kept = closed.take(VALUE);
        closed.free();
        let Some(value) = kept else { unreachable!() };
        value
    }
}
