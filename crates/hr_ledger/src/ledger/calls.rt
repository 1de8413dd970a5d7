//! The callers' calls, each with one entry. What follows from it is due then. A refused one changes nothing.
ghost use Rattle.std.specs.Prelude.{◌≡◌, ◌+◌, length, IfOk, OnOk, OnErr};
ghost use Rattle.hr_history.specs.declared.entry.Event.TheVariants as event;
ghost use Rattle.hr_history.specs.Processed.{replica_in};
ghost use Rattle.hr_history.specs.Transactions as history;
ghost use Rattle.hr_progress.specs.GivenTo.{given_by};
ghost use Rattle.hr_ledger.specs.Chronicle.{history_in, view_in, IsQuiet, IsAllowed, and_entry};

use crate::events::given;
use crate::ledger::Ledger;
use crate::room::reserve;
use crate::script::{Script, add_place, make_room};
use hr_due::Turn;
use hr_engine::TxnId;
use hr_entries::{Stored, StoredEvent};
use hr_history::{Job, JobReply};
use hr_rel::Stmt;
use std::alloc::{AllocError, Global};

impl Ledger {
    /// A session begins a transaction. Gives its number.
    pub fn begin(&mut self, alloc: Global, caller: u64, session: u32) -> Result<TxnId, AllocError>
        requires quiet { IsQuiet self.old }
        requires allowed { IsAllowed caller (event.Begin session (length (history.begun (history_in self.old)) + 1)) self.old }
        ensures txn { IfOk result (λ txn. txn ≡ length (history.begun (history_in self.old)) + 1) }
        ensures ok { OnOk result (self.new ≡ and_entry caller (event.Begin session (length (history.begun (history_in self.old)) + 1)) self.old) }
        ensures err { OnErr result (self.new ≡ self.old) }
    {
        let Ledger {
            stored,
            scripts,
            turn,
            view,
            ..
        } = self;
        reserve(stored, view, 2)?;
        scripts.reserve(1)?;
        view.begin(alloc, session)?;
        let txn = scripts.len() as u64 + 1;
        scripts.push_reserved(Script {
            session,
            statements: Vec::new(alloc),
        });
        *turn = Turn::of_call(stored.len() as u64);
        stored.push_reserved(Stored {
            caller,
            event: StoredEvent::Begin { session, txn },
        });
        Ok(txn)
    }

    /// A session submits the next statement of a transaction. Gives its index, from 1.
    pub fn submit(&mut self, caller: u64, txn: TxnId, stmt: Stmt) -> Result<u32, AllocError>
        requires quiet { IsQuiet self.old }
        requires allowed { IsAllowed caller (event.Submit txn (length (history.submits txn (history_in self.old)) + 1) stmt) self.old }
        ensures index { IfOk result (λ index. index ≡ length (history.submits txn (history_in self.old)) + 1) }
        ensures ok { OnOk result (self.new ≡ and_entry caller (event.Submit txn (length (history.submits txn (history_in self.old)) + 1) stmt) self.old) }
        ensures err { OnErr result (self.new ≡ self.old) }
    {
        let Ledger {
            stored,
            statements,
            scripts,
            turn,
            view,
            ..
        } = self;
        reserve(stored, view, 1)?;
        statements.reserve(1)?;
        make_room(scripts, txn)?;
        let index = view.statements(txn) + 1;
        view.submit(txn)?;
        let at = statements.len();
        add_place(scripts, txn, at);
        statements.push_reserved(stmt);
        *turn = Turn::of_call(stored.len() as u64);
        stored.push_reserved(Stored {
            caller,
            event: StoredEvent::Submit { txn, index, at },
        });
        Ok(index)
    }

    /// A session asks for its transaction to be committed.
    pub fn ask_commit(&mut self, caller: u64, txn: TxnId) -> Result<(), AllocError>
        requires quiet { IsQuiet self.old }
        requires allowed { IsAllowed caller (event.AskCommit txn) self.old }
        ensures ok { OnOk result (self.new ≡ and_entry caller (event.AskCommit txn) self.old) }
        ensures err { OnErr result (self.new ≡ self.old) }
    {
        let Ledger {
            stored,
            asks,
            turn,
            view,
            ..
        } = self;
        reserve(stored, view, 1)?;
        view.ask_commit(txn, *asks);
        *asks += 1;
        *turn = Turn::of_call(stored.len() as u64);
        stored.push_reserved(Stored {
            caller,
            event: StoredEvent::AskCommit { txn },
        });
        Ok(())
    }

    /// A session has its transaction rolled back.
    pub fn ask_rollback(&mut self, caller: u64, txn: TxnId)
        requires quiet { IsQuiet self.old }
        requires allowed { IsAllowed caller (event.AskRollback txn) self.old }
        ensures { self.new ≡ and_entry caller (event.AskRollback txn) self.old }
    {
        let Ledger {
            stored,
            turn,
            view,
            ..
        } = self;
        view.ask_rollback(txn);
        *turn = Turn::of_call(stored.len() as u64);
        stored.push_reserved(Stored {
            caller,
            event: StoredEvent::AskRollback { txn },
        });
    }

    /// A replica is given its job. What its reply may add has its room from now on.
    pub fn take(
        &mut self,
        alloc: Global,
        caller: u64,
        replica: u32,
        job: Job,
    ) -> Result<(), AllocError>
        requires quiet { IsQuiet self.old }
        requires allowed { IsAllowed caller (event.Take replica job) self.old }
        ensures ok { OnOk result (self.new ≡ and_entry caller (event.Take replica job) self.old) }
        ensures err { OnErr result (self.new ≡ self.old) }
    {
        let Ledger {
            stored,
            turn,
            view,
            ..
        } = self;
        reserve(stored, view, 3)?;
        view.take(alloc, replica, job)?;
        *turn = Turn::of_call(stored.len() as u64);
        stored.push_reserved(Stored {
            caller,
            event: StoredEvent::Take { replica, job },
        });
        Ok(())
    }

    /// A replica replies to its job. Gives the transaction whose session is given the answer, if one is. It takes no memory.
    pub fn give(&mut self, caller: u64, replica: u32, reply: JobReply) -> Option<TxnId>
        requires quiet { IsQuiet self.old }
        requires allowed { IsAllowed caller (event.Give replica reply) self.old }
        ensures given { result ≡ given_by (view_in self.old) replica (replica_in (view_in self.old) replica).out reply }
        ensures entry { self.new ≡ and_entry caller (event.Give replica reply) self.old }
    {
        let Ledger {
            stored,
            turn,
            view,
            ..
        } = self;
        let place = stored.len() as u64;
        let event = given(replica, &reply, view.replies().len());
        *turn = Turn::of_give(view, replica, &reply, place);
        let to = view.give(replica, reply, place);
        stored.push_reserved(Stored { caller, event });
        to
    }

    /// A replica is restarted, and tells how many commits it has made. It takes no memory.
    pub fn restarted(&mut self, caller: u64, replica: u32, count: u64)
        requires quiet { IsQuiet self.old }
        requires allowed { IsAllowed caller (event.Restarted replica count) self.old }
        ensures { self.new ≡ and_entry caller (event.Restarted replica count) self.old }
    {
        let Ledger {
            stored,
            turn,
            view,
            ..
        } = self;
        *turn = Turn::of_restart(view, replica, count, stored.len() as u64);
        view.restarted(replica, count);
        stored.push_reserved(Stored {
            caller,
            event: StoredEvent::Restarted { replica, count },
        });
    }

    /// Somebody suspects the primary.
    pub fn suspect(&mut self, caller: u64) -> Result<(), AllocError>
        requires quiet { IsQuiet self.old }
        ensures ok { OnOk result (self.new ≡ and_entry caller event.Suspect self.old) }
        ensures err { OnErr result (self.new ≡ self.old) }
    {
        let Ledger {
            stored,
            turn,
            view,
            ..
        } = self;
        reserve(stored, view, 2)?;
        *turn = Turn::of_suspect(view, stored.len() as u64);
        view.suspect();
        stored.push_reserved(Stored {
            caller,
            event: StoredEvent::Suspect,
        });
        Ok(())
    }
}
