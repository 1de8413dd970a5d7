//! The rule of the lock's table, and what its steps tell.
ghost use Rattle.hr_turn.specs.Views.{first_view, split_off, root_after_split, root_after_join, spent_view};
ghost use Rattle.hr_turn.specs.Turns.{InTurns};
ghost use Rattle.hr_turn.specs.Steps.{Draws, Looks, Serves, Settles};

use crate::kept::Kept;
use crate::view::View;
use atomic_table::{Join, Play, Split, TableRule};
use std::marker::PhantomData;
use std::snapshot::Snapshot;

/// The rule. Its key is the first value, for the part of it that is fixed.
pub struct Turns<S> {
    kept: PhantomData<S>,
}

impl<S: Kept> TableRule<Option<S>, View<S::Entry>, Snapshot<S>> for Turns<S> {
    ghost holds = { λ k. InTurns S.entries S.caller S.fixed (S.fixed k.value) };

    ghost first = { λ k. first_view (S.fixed k.value) };
}

/// A ticket is drawn.
pub(crate) struct Draw;

impl<S: Kept> Play<Option<S>, View<S::Entry>> for Draw {
    ghost then = { Draws };
}

/// A look at whose turn it is.
pub(crate) struct Look;

impl<S: Kept> Play<Option<S>, View<S::Entry>> for Look {
    ghost then = { Looks S.entries S.caller S.fixed };
}

/// The next is served.
pub(crate) struct Serve;

impl<S: Kept> Play<Option<S>, View<S::Entry>> for Serve {
    ghost then = { Serves S.entries S.caller S.fixed };
}

/// A load after a join.
pub(crate) struct Settle;

impl<S: Kept> Play<Option<S>, View<S::Entry>> for Settle {
    ghost then = { Settles S.caller };
}

/// A pass is split off the root.
pub(crate) struct SplitOff;

impl<E> Split<View<E>> for SplitOff {
    ghost left = { root_after_split };

    ghost right = { split_off };
}

/// A pass is taken back by the root.
pub(crate) struct TakeBack;

impl<E> Join<View<E>> for TakeBack {
    ghost both = { root_after_join };

    ghost spent = { spent_view };
}
