//! Figures: programs to be measured, in one.
//!
//! - Of the rules in code and of the shepherd: what a job, a tally, a search for one to preempt, and a look for evidence take, also
//!   where each of many transactions waits for all before it; and what whole runs take. This has no clock: `tools/core-figures`
//!   runs it under one that counts instructions, and tells the table. With the name of a run, and the number of entries that the
//!   history is to have, it makes that run. With the name of a rule, and four numbers (`f`, the open transactions, the finished
//!   ones, the calls), it asks that rule so often.
//! - Of the turn lock, beside a plain `Mutex`: with the word `times` it prints how long a turn takes, best of five runs.
//!
//! Without words it prints what is the same wherever it runs: what the rules answer, what comes of two short runs, and how many
//! turns were taken in short runs of the lock.
#![tactic(auto)]

mod block;
mod report;
mod rules;
mod runs;
mod turn_report;
mod turns;
mod views;
mod waits;
mod words;

use report::{print_answers, print_rule, print_run};
use std::{env, io};
use turn_report::{print_counts, print_times};
use views::Size;
use words::{Task, task_of};

fn main(rt: HostRuntime) -> io::Result<()> {
    let mut task = None;
    let mut numbers = Vec::new(rt.alloc());
    for word in env::args(&rt)?.skip(1) {
        match word.as_str().parse::<u32>() {
            Ok(number) => numbers.push(number)?,
            Err(_) => task = task_of(word.as_str()),
        }
    }
    match (task, numbers.as_slice()) {
        (Some(Task::Run(load)), [entries]) if load.f <= 3 => print_run(
            &rt,
            &load,
            *entries as usize,
        ),
        (Some(Task::Ask(rule)), [f @ 0..=3, open, finished, calls]) => {
            let size = Size {
                f: *f,
                finished: *finished,
                open: *open,
            };
            print_rule(&rt, rule, &size, *calls)
        }
        (Some(Task::Times), []) => print_times(&rt),
        _ => {
            print_answers(&rt)?;
            print_counts(&rt)
        }
    }
}
