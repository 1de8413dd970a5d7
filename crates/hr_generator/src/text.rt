//! The scenario as its text.
ghost use Rattle.std.specs.Prelude.{◌≡◌, ◌≤◌, ◌+◌, ◌*◌, ◌/◌, ◌++◌, IfOk, OnOk, string_bytes};
ghost use Rattle.std.specs.List.{flat_map, range_with_len};
ghost use Rattle.hr_base.specs.Lists.{one_to};
ghost use Rattle.hr_generator.specs.Orders.{IsOrder};
ghost use Rattle.hr_generator.specs.Draws as drawing;
ghost use Rattle.hr_generator.specs.Made as made;

use crate::draws::{ACCOUNTS, Draws, Transfer};
use crate::order::{MAX_SESSIONS, Order};
use std::alloc::{AllocError, Global};

/// The scenario that an order asks for, as its text. An error is want of memory.
pub fn make(alloc: Global, order: &Order) -> Result<String, AllocError>
    requires within { IsOrder order.now }
    ensures { IfOk result (λ text. string_bytes text ≡ made.made order.now) }
{
    let mut out = String::new(alloc);
    push_head(&mut out)?;
    push_rows(&mut out)?;
    push_sessions(&mut out, order)?;
    push_schedule(&mut out, order.sessions)?;
    Ok(out)
}

#[tactic(auto, unfolding(crate::specs::Made::head_text))]
fn push_head(out: &mut String) -> Result<(), AllocError>
    ensures { OnOk result (string_bytes out.new ≡ string_bytes out.old ++ made.head_text) }
{
    writeln!(out, "hrdb 1")?;
    writeln!(out, "f 1")?;
    writeln!(out, "replicas range table range")?;
    writeln!(out, "retries 3")?;
    writeln!(out, "table acct (id int key, owner text, bal int)")
}

fn push_rows(out: &mut String) -> Result<(), AllocError>
    ensures { OnOk result (string_bytes out.new ≡ string_bytes out.old ++ flat_map made.row_text (one_to ACCOUNTS)) }
{
    'rows: for before in 0..ACCOUNTS {
        push_row(out, before + 1)?;
    }
    Ok(())
}

#[tactic(auto, unfolding(crate::specs::Made::row_text))]
fn push_row(out: &mut String, number: u32) -> Result<(), AllocError>
    ensures { OnOk result (string_bytes out.new ≡ string_bytes out.old ++ made.row_text number) }
{
    writeln!(out, "row acct ({number}, 'own{number}', 1000)")
}

fn push_sessions(out: &mut String, order: &Order) -> Result<(), AllocError>
    ensures { OnOk result (string_bytes out.new ≡ string_bytes out.old ++ flat_map (made.session_text order.now) (range_with_len 0 order.now.sessions)) }
{
    let mut draws = Draws { state: order.seed };
    'sessions: for before in 0..order.sessions {
        push_session(out, &mut draws, order.transactions)?;
    }
    Ok(())
}

#[tactic(auto, unfolding(crate::specs::Made::session_behind))]
fn push_session(out: &mut String, draws: &mut Draws, transactions: u32) -> Result<(), AllocError>
    ensures text { OnOk result (string_bytes out.new ≡ string_bytes out.old ++ made.session_behind draws.old.state transactions) }
    ensures state { OnOk result (draws.new.state ≡ drawing.state_after draws.old.state (4 * transactions)) }
{
    writeln!(out, "session")?;
    push_transfers(out, draws, transactions)?;
    writeln!(out, "end")
}

#[tactic(auto, unfolding(crate::specs::Made::transfers_behind))]
fn push_transfers(out: &mut String, draws: &mut Draws, transactions: u32) -> Result<(), AllocError>
    ensures text { OnOk result (string_bytes out.new ≡ string_bytes out.old ++ made.transfers_behind draws.old.state transactions) }
    ensures state { OnOk result (draws.new.state ≡ drawing.state_after draws.old.state (4 * transactions)) }
{
    'transfers: for before in 0..transactions {
        let transfer = draws.transfer();
        push_transfer(out, transfer)?;
    }
    Ok(())
}

#[tactic(auto, unfolding(crate::specs::Made::transfer_text))]
fn push_transfer(out: &mut String, transfer: Transfer) -> Result<(), AllocError>
    ensures { OnOk result (string_bytes out.new ≡ string_bytes out.old ++ made.transfer_text transfer) }
{
    let Transfer {
        from,
        to,
        amount,
        reads,
    } = transfer;
    push_giving(out, amount, from)?;
    push_getting(out, amount, to)?;
    push_reading(out, reads, from)?;
    writeln!(out, "COMMIT")
}

#[tactic(auto, unfolding(crate::specs::Made::giving_text))]
fn push_giving(out: &mut String, amount: u32, from: u32) -> Result<(), AllocError>
    ensures { OnOk result (string_bytes out.new ≡ string_bytes out.old ++ made.giving_text amount from) }
{
    write!(out, "UPDATE acct SET bal = bal - {amount}")?;
    writeln!(out, " WHERE id = {from}")
}

#[tactic(auto, unfolding(crate::specs::Made::getting_text))]
fn push_getting(out: &mut String, amount: u32, to: u32) -> Result<(), AllocError>
    ensures { OnOk result (string_bytes out.new ≡ string_bytes out.old ++ made.getting_text amount to) }
{
    write!(out, "UPDATE acct SET bal = bal + {amount}")?;
    writeln!(out, " WHERE id = {to}")
}

// Ten accounts are read, from this one on, if any are.
fn push_reading(out: &mut String, reads: bool, from: u32) -> Result<(), AllocError>
    ensures { OnOk result (string_bytes out.new ≡ string_bytes out.old ++ made.reading_text reads from) }
{
    if reads {
        push_read(out, from as u64, from as u64 + 9)?;
    }
    Ok(())
}

#[tactic(auto, unfolding(crate::specs::Made::read_text))]
fn push_read(out: &mut String, from: u64, last: u64) -> Result<(), AllocError>
    ensures { OnOk result (string_bytes out.new ≡ string_bytes out.old ++ made.read_text from last) }
{
    write!(out, "SELECT bal FROM acct WHERE id BETWEEN {from}")?;
    writeln!(out, " AND {last}")
}

#[tactic(auto, unfolding(crate::specs::Made::schedule_text))]
fn push_schedule(out: &mut String, sessions: u32) -> Result<(), AllocError>
    requires few { sessions ≤ MAX_SESSIONS }
    ensures { OnOk result (string_bytes out.new ≡ string_bytes out.old ++ made.schedule_text sessions) }
{
    writeln!(out, "schedule")?;
    push_rounds(out, 200000 / (sessions + 3))?;
    writeln!(out, "end")
}

#[tactic(auto, unfolding(crate::specs::Made::rounds_text))]
fn push_rounds(out: &mut String, rounds: u32) -> Result<(), AllocError>
    ensures { OnOk result (string_bytes out.new ≡ string_bytes out.old ++ made.rounds_text rounds) }
{
    writeln!(out, "rounds {rounds}")
}
