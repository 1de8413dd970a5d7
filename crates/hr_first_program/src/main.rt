//! A first program over the shepherd: three databases behind it, and one session, which runs a transaction.
//!
//! With three replicas (`f` is 1) one may answer anything, or nothing: what the session is told to be committed is right all
//! the same.
#![tactic(auto)]

mod fault;
mod replicas;
mod table;

use crate::fault::Fault;
use crate::replicas::run_all;
use crate::table::{catalog, engine};
use hr_bind::prepare;
use hr_history::{Cause, Reply};
use hr_shepherd::Shepherd;

// The caller's number of the only session: 0 is the root's, and 1 to 3 are the replicas'.
const SESSION: u64 = 4;

const TEXTS: [&str; 2] = [
    "INSERT INTO t VALUES (5, 50)",
    "SELECT v FROM t WHERE id = 5",
];

fn main(rt: HostRuntime) -> Result<(), Fault> {
    let alloc = rt.alloc();
    let catalog = catalog(alloc)?;
    let mut shepherd = Shepherd::new(alloc, 1, 1)?;
    let mut backends = [
        engine(alloc, &catalog)?,
        engine(alloc, &catalog)?,
        engine(alloc, &catalog)?,
    ];
    let txn = shepherd.begin(alloc, SESSION, 1)?;
    for text in TEXTS {
        let stmt = prepare(alloc, text, &catalog)?;
        shepherd.submit(SESSION, txn, stmt)?;
        run_all(alloc, &mut shepherd, &mut backends)?;
        print_reply(&rt, &shepherd)?;
    }
    shepherd.ask_commit(SESSION, txn)?;
    run_all(alloc, &mut shepherd, &mut backends)?;
    print_reply(&rt, &shepherd)
}

fn print_reply<R: Print + AllocGlobal>(rt: &R, shepherd: &Shepherd) -> Result<(), Fault> {
    if shepherd.sessions() < 1 {
        return Ok(());
    }
    let reply = shepherd.collect(rt.alloc(), 1)?;
    match &reply {
        Some(Reply::Answered(answer)) => println!(rt; "{answer:?}")?,
        Some(Reply::Committed(place)) => println!(rt; "committed at {place}")?,
        Some(Reply::Refused(Cause::PrimaryMemory)) => println!(rt;
            "refused: the primary had no memory"
        )?,
        Some(Reply::Refused(_)) => println!(rt; "refused: begin again")?,
        None => println!(rt; "no reply yet")?,
    }
    Ok(())
}
