//! The summary, line by line.
ghost use Rattle.std.specs.Prelude.{◌≡◌, ◌++◌, IfOk, OnOk, string_bytes};
ghost use Rattle.std.specs.List.{flat_map};
ghost use Rattle.hr_summary.specs.Summary as summary;

use crate::counts::{Counts, counted};
use crate::total::total;
use hr_generator::Order;
use hr_rel::Rows;
use hr_shepherd::Shepherd;
use std::alloc::{AllocError, Global};

/// The summary of a run of what an order made. `dumps` are the rows that each replica has committed: one table, with the
/// balance third. An error is want of memory.
pub fn summary_text(
    alloc: Global,
    order: &Order,
    shepherd: &Shepherd,
    dumps: &[Rows],
) -> Result<String, AllocError>
    ensures { IfOk result (λ text. string_bytes text ≡ summary.summary_text order.now shepherd.now dumps.now) }
{
    let mut out = String::new(alloc);
    push_order(&mut out, order)?;
    push_commits(&mut out, shepherd)?;
    write!(out, "total")?;
    push_totals(&mut out, dumps)?;
    writeln!(out)?;
    Ok(out)
}

// What was asked for, in the words that asked for it.
#[tactic(auto, unfolding(crate::specs::Summary::order_text))]
fn push_order(out: &mut String, order: &Order) -> Result<(), AllocError>
    ensures { OnOk result (string_bytes out.new ≡ string_bytes out.old ++ summary.order_text order.now) }
{
    let Order {
        seed,
        sessions,
        transactions,
    } = *order;
    writeln!(out, "load {seed} {sessions} {transactions}")
}

#[tactic(auto, unfolding(crate::specs::Summary::commits_text))]
fn push_commits(out: &mut String, shepherd: &Shepherd) -> Result<(), AllocError>
    ensures { OnOk result (string_bytes out.new ≡ string_bytes out.old ++ summary.commits_text shepherd.now) }
{
    let commits = shepherd.view().log().len();
    let counts = counted(&shepherd.history());
    push_counts(out, commits, &counts)
}

fn push_counts(out: &mut String, commits: usize, counts: &Counts) -> Result<(), AllocError>
    ensures { OnOk result (string_bytes out.new ≡ string_bytes out.old ++ summary.counts_text commits counts.now.refused counts.now.preempted) }
{
    push_count(out, "commits", commits)?;
    push_count(out, "refused", counts.refused)?;
    push_count(out, "preempted", counts.preempted)
}

#[tactic(auto, unfolding(crate::specs::Summary::count_text))]
fn push_count(out: &mut String, word: &str, count: usize) -> Result<(), AllocError>
    ensures { OnOk result (string_bytes out.new ≡ string_bytes out.old ++ summary.count_text word.now count) }
{
    out.push_str(word)?;
    writeln!(out, " {count}")
}

fn push_totals(out: &mut String, dumps: &[Rows]) -> Result<(), AllocError>
    ensures { OnOk result (string_bytes out.new ≡ string_bytes out.old ++ flat_map summary.total_text dumps.now) }
{
    'dumps: for rows in dumps {
        push_total(out, rows)?;
    }
    Ok(())
}

#[tactic(auto, unfolding(crate::specs::Summary::total_text))]
fn push_total(out: &mut String, rows: &Rows) -> Result<(), AllocError>
    ensures { OnOk result (string_bytes out.new ≡ string_bytes out.old ++ summary.total_text rows.now) }
{
    let total = total(rows)?;
    write!(out, " {total}")
}
