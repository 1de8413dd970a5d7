//! The choices of a schedule, one after another.
ghost use Rattle.std.specs.Prelude.{◌≡◌, ◌≤◌, ◌*◌, map, OnOk};
ghost use Rattle.hr_schedule.specs.Choices.{Each, Times, Round, Chooses, choices};
ghost use Rattle.hr_said.specs.declared.scenario.Choice.TheVariants as choice;
ghost use Rattle.hr_driver.specs.Made.{Made};
ghost use Rattle.hr_driver.specs.Whole.{IsReady, IsThere, AreThere, StandOn};

use crate::round::{each_replica, each_session, give_at, replica_at, session_at};
use crate::take::{suspect_all, take_job};
use hr_engine::Backend;
use hr_said::{Choice, Scenario};
use hr_schedule::Try;
use hr_shepherd::Shepherd;
use std::alloc::{AllocError, Global};

/// A shepherd with a backend behind each replica, in the order of their numbers, and each session's last try.
#[derive(Drop)]
pub struct Driver<B> {
    pub shepherd: Shepherd,
    pub backends: Vec<B>,
    pub tries: Vec<Option<Try>>,
}

// Whether or not memory is refused on the way, each of these leaves the driver ready, its backends of the same make, and each
// that stood for its replica's journal still stands for it.
impl<B: Backend> Driver<B> {
    /// Makes the choices of the schedule; where the scenario has none, 200 rounds.
    pub fn schedule(&mut self, alloc: Global, scenario: &Scenario) -> Result<(), AllocError>
        requires known { AreThere scenario.now (choices scenario.now) }
        requires ready { IsReady scenario.now self.old }
        ensures ok { OnOk result (Made (Each (Chooses scenario.now) (choices scenario.now)) self.old.shepherd self.new.shepherd) }
        ensures ready { IsReady scenario.now self.new }
        ensures stands { StandOn B.stands self.old.backends.items self.new.backends.items self.old.shepherd self.new.shepherd }
        ensures make { map B.make self.new.backends.items ≡ map B.make self.old.backends.items }
    {
        match &scenario.schedule {
            Some(choices) => self.run(alloc, scenario, choices.as_slice()),
            None => self.run(alloc, scenario, &[Choice::Rounds(200)]),
        }
    }

    /// Makes these choices, in their order.
    pub fn run(
        &mut self,
        alloc: Global,
        scenario: &Scenario,
        choices: &[Choice],
    ) -> Result<(), AllocError>
        requires known { AreThere scenario.now choices.now }
        requires ready { IsReady scenario.now self.old }
        ensures ok { OnOk result (Made (Each (Chooses scenario.now) choices.now) self.old.shepherd self.new.shepherd) }
        ensures ready { IsReady scenario.now self.new }
        ensures stands { StandOn B.stands self.old.backends.items self.new.backends.items self.old.shepherd self.new.shepherd }
        ensures make { map B.make self.new.backends.items ≡ map B.make self.old.backends.items }
    {
        'choices: for choice in choices {
            self.choose(alloc, scenario, *choice)?;
        }
        Ok(())
    }

    /// Makes one choice.
    pub fn choose(
        &mut self,
        alloc: Global,
        scenario: &Scenario,
        choice: Choice,
    ) -> Result<(), AllocError>
        requires known { IsThere scenario.now choice }
        requires ready { IsReady scenario.now self.old }
        ensures ok { OnOk result (Made (Chooses scenario.now choice) self.old.shepherd self.new.shepherd) }
        ensures ready { IsReady scenario.now self.new }
        ensures stands { StandOn B.stands self.old.backends.items self.new.backends.items self.old.shepherd self.new.shepherd }
        ensures make { map B.make self.new.backends.items ≡ map B.make self.old.backends.items }
    {
        match choice {
            Choice::Session(session) => self.session(alloc, scenario, session),
            Choice::Both(replica) => self.replica(alloc, scenario, replica),
            Choice::TakeJob(replica) => self.take_job(alloc, scenario, replica),
            Choice::GiveReply(replica) => self.give_reply(alloc, scenario, replica),
            Choice::Rounds(count) => self.rounds(alloc, scenario, count),
        }
    }

    /// So many times every session and then every replica.
    pub fn rounds(
        &mut self,
        alloc: Global,
        scenario: &Scenario,
        count: u32,
    ) -> Result<(), AllocError>
        requires ready { IsReady scenario.now self.old }
        ensures ok { OnOk result (Made (Times (Round scenario.now) count) self.old.shepherd self.new.shepherd) }
        ensures ready { IsReady scenario.now self.new }
        ensures stands { StandOn B.stands self.old.backends.items self.new.backends.items self.old.shepherd self.new.shepherd }
        ensures make { map B.make self.new.backends.items ≡ map B.make self.old.backends.items }
    {
        'rounds: for done in 0..count {
            self.round(alloc, scenario)?;
        }
        Ok(())
    }

    /// Every session makes its choice, and then every replica.
    pub fn round(&mut self, alloc: Global, scenario: &Scenario) -> Result<(), AllocError>
        requires ready { IsReady scenario.now self.old }
        ensures ok { OnOk result (Made (Round scenario.now) self.old.shepherd self.new.shepherd) }
        ensures ready { IsReady scenario.now self.new }
        ensures stands { StandOn B.stands self.old.backends.items self.new.backends.items self.old.shepherd self.new.shepherd }
        ensures make { map B.make self.new.backends.items ≡ map B.make self.old.backends.items }
    {
        each_session(
            alloc,
            scenario,
            &mut self.shepherd,
            self.tries.as_mut_slice(),
        )?;
        each_replica(
            alloc,
            scenario,
            &mut self.shepherd,
            self.backends.as_mut_slice(),
        )
    }

    fn session(
        &mut self,
        alloc: Global,
        scenario: &Scenario,
        session: u32,
    ) -> Result<(), AllocError>
        requires known { IsThere scenario.now (choice.Session session) }
        requires ready { IsReady scenario.now self.old }
        ensures ok { OnOk result (Made (Chooses scenario.now (choice.Session session)) self.old.shepherd self.new.shepherd) }
        ensures ready { IsReady scenario.now self.new }
        ensures stands { StandOn B.stands self.old.backends.items self.new.backends.items self.old.shepherd self.new.shepherd }
        ensures make { map B.make self.new.backends.items ≡ map B.make self.old.backends.items }
    {
        session_at(
            alloc,
            scenario,
            &mut self.shepherd,
            self.tries.as_mut_slice(),
            session - 1,
        )
    }

    fn replica(
        &mut self,
        alloc: Global,
        scenario: &Scenario,
        replica: u32,
    ) -> Result<(), AllocError>
        requires known { replica ≤ 2 * scenario.now.f }
        requires ready { IsReady scenario.now self.old }
        ensures ok { OnOk result (Made (Chooses scenario.now (choice.Both replica)) self.old.shepherd self.new.shepherd) }
        ensures ready { IsReady scenario.now self.new }
        ensures stands { StandOn B.stands self.old.backends.items self.new.backends.items self.old.shepherd self.new.shepherd }
        ensures make { map B.make self.new.backends.items ≡ map B.make self.old.backends.items }
    {
        replica_at(
            alloc,
            scenario,
            &mut self.shepherd,
            self.backends.as_mut_slice(),
            replica,
        )
    }

    fn take_job(
        &mut self,
        alloc: Global,
        scenario: &Scenario,
        replica: u32,
    ) -> Result<(), AllocError>
        requires known { replica ≤ 2 * scenario.now.f }
        requires ready { IsReady scenario.now self.old }
        ensures ok { OnOk result (Made (Chooses scenario.now (choice.TakeJob replica)) self.old.shepherd self.new.shepherd) }
        ensures ready { IsReady scenario.now self.new }
        ensures stands { StandOn B.stands self.old.backends.items self.new.backends.items self.old.shepherd self.new.shepherd }
        ensures make { map B.make self.new.backends.items ≡ map B.make self.old.backends.items }
    {
        take_job(alloc, &mut self.shepherd, replica)?;
        suspect_all(scenario, &mut self.shepherd)
    }

    fn give_reply(
        &mut self,
        alloc: Global,
        scenario: &Scenario,
        replica: u32,
    ) -> Result<(), AllocError>
        requires known { replica ≤ 2 * scenario.now.f }
        requires ready { IsReady scenario.now self.old }
        ensures ok { OnOk result (Made (Chooses scenario.now (choice.GiveReply replica)) self.old.shepherd self.new.shepherd) }
        ensures ready { IsReady scenario.now self.new }
        ensures stands { StandOn B.stands self.old.backends.items self.new.backends.items self.old.shepherd self.new.shepherd }
        ensures make { map B.make self.new.backends.items ≡ map B.make self.old.backends.items }
    {
        give_at(
            alloc,
            &mut self.shepherd,
            self.backends.as_mut_slice(),
            replica,
        );
        suspect_all(scenario, &mut self.shepherd)
    }
}
