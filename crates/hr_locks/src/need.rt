ghost use Rattle.std.specs.Prelude.{◌≡◌, Bool};
ghost use Rattle.hr_locks.specs.Locks.{is_exclusive, is_conflict};

/// The number of a transaction.
pub type TxnId = u64;

/// How an item is locked: by any number of readers, or by one transaction alone.
#[derive(Clone, Copy)]
pub enum Mode {
    Shared,
    Exclusive,
}

impl Mode {
    /// Whether it shuts out all others.
    pub fn is_exclusive(self) -> bool
        ensures { result ≡ is_exclusive self }
    {
        match self {
            Mode::Shared => false,
            Mode::Exclusive => true,
        }
    }
}

/// What can be locked: a table, a range of keys, or another set of items that has a name.
pub trait LockName: Copy {
    /// Whether two names cover a common item.
    ghost meets: { Self → Self → Bool };

    /// Whether two names cover a common item.
    fn meets(&self, other: &Self) -> bool
        ensures { result ≡ meets self.now other.now };

    /// It is all the same which of the two is asked.
    ghost symmetric: { (a b : Self) → meets a b ≡ meets b a };
}

/// What a transaction wants to lock, and how.
#[derive(Clone, Copy)]
pub struct Need<N> {
    pub name: N,
    pub mode: Mode,
}

/// What a transaction has locked.
#[derive(Clone, Copy)]
pub struct Lock<N> {
    pub txn: TxnId,
    pub need: Need<N>,
}

impl<N: LockName> Need<N> {
    /// Whether both can't be granted to two transactions at once.
    pub fn conflicts(&self, other: &Need<N>) -> bool
        ensures { result ≡ is_conflict N.meets self.now other.now }
    {
        self.name.meets(&other.name) && (self.mode.is_exclusive() || other.mode.is_exclusive())
    }
}
