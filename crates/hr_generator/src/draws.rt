//! What is drawn for each transfer.
ghost use Rattle.std.specs.Prelude.{◌≡◌, ◌<◌};
ghost use Rattle.hr_generator.specs.Draws as draws;

/// A transfer between two accounts.
#[derive(Clone, Copy, Debug, PartialEq, Eq)]
pub struct Transfer {
    /// The number of the account that gives.
    pub from: u32,
    /// The number of the account that gets.
    pub to: u32,
    pub amount: u32,
    /// Whether the accounts from the giving one on are read behind it.
    pub reads: bool,
}

/// A linear congruential generator.
#[derive(Drop)]
pub struct Draws {
    pub state: u32,
}

impl Draws {
    /// The next transfer: its four draws.
    #[tactic(auto, unfolding(crate::specs::Draws::transfer_behind))]
    pub fn transfer(&mut self) -> Transfer
        ensures drawn { result ≡ draws.transfer_behind self.old.state }
        ensures state { self.new.state ≡ draws.state_after self.old.state 4 }
    {
        let from = self.draw(ACCOUNTS) + 1;
        let to = self.draw(ACCOUNTS) + 1;
        let amount = self.draw(AMOUNTS) + 1;
        let reads = self.draw(4) == 0;
        Transfer {
            from,
            to,
            amount,
            reads,
        }
    }

    // A number from 0, below `below`.
    #[tactic(auto, unfolding(crate::specs::Draws::next_state))]
    fn draw(&mut self, below: u32) -> u32
        requires some { 0 < below }
        ensures drawn { result ≡ draws.reduced (draws.next_state self.old.state) below }
        ensures below { result < below }
        ensures state { self.new.state ≡ draws.next_state self.old.state }
    {
        let next = (1103515245 * self.state as u64 + 12345) % 2147483648;
        self.state = next as u32;
        (self.state / 65536) % below
    }
}

/// So many accounts there are, with the numbers from 1.
pub const ACCOUNTS: u32 = 100;
/// A transfer's amount is from 1 to this.
pub const AMOUNTS: u32 = 50;
