//! Rows of calls on the shepherd, with replies that are made up.
//!
//! Each call is printed with its answer, and below it the entries that the history got by it: the place, the caller's number,
//! and the event. A refused call gets none. At the end of a row stands how long the history is. `stdout` has what is to be
//! printed, which was worked out by hand from the rules.
//!
//! Statements are DELETEs; their tables tell them apart.
#![tactic(auto)]

mod calls;
mod entry;
mod limits;
mod play;
mod reply;
mod rows;
mod told;

use crate::limits::{print_history_limit, print_statement_limit};
use crate::play::play_row;
use crate::rows::{
    BARRIER_CALLS, COMMIT_IN_DOUBT, DECIDED_AT_ONCE, EVERY_CAUSE, EVERY_REFUSAL, PRIMARY_ANSWERS,
    PRIMARY_MEMORY, SHEPHERD_REFUSALS,
};
use hr_shepherd::Shepherd;
use std::io;

fn main(rt: HostRuntime) -> io::Result<()> {
    let mut shepherd = Shepherd::new(rt.alloc(), 0, 1)?;
    play_row(&rt, &mut shepherd, "shepherd_refusals", &SHEPHERD_REFUSALS)?;
    play_row(&rt, &mut shepherd, "primary_answers", &PRIMARY_ANSWERS)?;
    play_row(&rt, &mut shepherd, "decided_at_once", &DECIDED_AT_ONCE)?;
    let mut shepherd = Shepherd::new(rt.alloc(), 0, 1)?;
    play_row(&rt, &mut shepherd, "primary_memory", &PRIMARY_MEMORY)?;
    let mut shepherd = Shepherd::new(rt.alloc(), 0, 1)?;
    play_row(&rt, &mut shepherd, "commit_in_doubt", &COMMIT_IN_DOUBT)?;
    let mut shepherd = Shepherd::new(rt.alloc(), 1, 2)?;
    play_row(&rt, &mut shepherd, "barrier_calls", &BARRIER_CALLS)?;
    let mut shepherd = Shepherd::new(rt.alloc(), 0, 2)?;
    play_row(&rt, &mut shepherd, "every_refusal", &EVERY_REFUSAL)?;
    let mut shepherd = Shepherd::new(rt.alloc(), 1, 2)?;
    play_row(&rt, &mut shepherd, "every_cause", &EVERY_CAUSE)?;
    print_statement_limit(&rt)?;
    print_history_limit(&rt)
}
