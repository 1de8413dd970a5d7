//! What is printed.
ghost use Rattle.std.specs.Prelude.{◌≤◌};

use crate::rules::{Rule, answers};
use crate::runs::{Load, run};
use crate::views::{Size, view_of};
use crate::waits::all_wait;
use crate::words::{EMPTY, ONE_SESSION};
use hr_progress::View;
use std::alloc::{AllocError, Global};
use std::io;

/// What the rules answer, and what comes of two short runs.
pub fn print_answers<R: Print + AllocGlobal>(rt: &R) -> io::Result<()> {
    for f in [1, 3] {
        for open in [8, 64] {
            print_answer(
                rt,
                &Size {
                    f,
                    finished: 10,
                    open,
                },
            )?;
        }
    }
    print_run(rt, &ONE_SESSION, 160)?;
    print_run(rt, &EMPTY, 190)
}

fn print_answer<R: Print + AllocGlobal>(rt: &R, size: &Size) -> io::Result<()>
    requires { size.now.f ≤ 3 }
{
    let view = view_of(rt.alloc(), size)?;
    let jobs = answers(&view, Rule::Next, 1);
    let tallies = answers(&view, Rule::Tally, 1);
    let gives_way = answers(&view, Rule::Preempts, 1);
    let shown = answers(&view, Rule::Evidence, 1);
    println!(rt;
        "f = {}, {} open: {jobs} job, {tallies} accepted, {gives_way} to preempt, {shown} convicted",
        size.f, size.open
    )
}

/// How many of so many calls of a rule answered something.
pub fn print_rule<R: Print + AllocGlobal>(
    rt: &R,
    rule: Rule,
    size: &Size,
    calls: u32,
) -> io::Result<()>
    requires { size.now.f ≤ 3 }
{
    let view = view_for(rt.alloc(), rule, size)?;
    let answered = answers(&view, rule, calls);
    println!(rt; "{answered} of {calls}")
}

fn view_for(alloc: Global, rule: Rule, size: &Size) -> Result<View, AllocError>
    requires { size.now.f ≤ 3 }
{
    match rule {
        Rule::Walk => all_wait(alloc, size),
        _ => view_of(alloc, size),
    }
}

/// What came of a run until the history had so many entries, or a few more.
pub fn print_run<R: Print + AllocGlobal>(rt: &R, load: &Load, entries: usize) -> io::Result<()>
    requires { load.now.f ≤ 3 }
{
    match run(rt.alloc(), load, entries) {
        Ok(ran) => println!(rt;
            "{} replicas, {} sessions of {} statements, {:?}: {} entries, {} calls, {} commits",
            2 * load.f + 1,
            load.sessions,
            load.statements,
            load.replies,
            ran.entries,
            ran.calls,
            ran.commits
        ),
        Err(refusal) => println!(rt; "{refusal}"),
    }
}
