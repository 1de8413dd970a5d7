//! What sessions are told, by places among the replies to runs.
ghost use Rattle.std.specs.Prelude.{◌≡◌};
ghost use Rattle.hr_moves.specs.Changes.{map_from};
ghost use Rattle.hr_core.specs.Seats.{waiting, first_told, change_of, IsSeat};

use hr_history::Why;

/// What a session was told since its last statement, or since it asked for a commit.
#[derive(Clone, Copy, Debug, PartialEq, Eq)]
pub enum Seat {
    NothingAsked,
    Waiting,
    /// The answer stands at this place.
    Answered(usize),
    /// Committed, at this place in the log, from 1.
    Committed(u64),
    Refused(Shown),
}

/// Why a transaction was refused.
#[derive(Clone, Copy, Debug, PartialEq, Eq)]
pub enum Shown {
    /// The cycle of waits stands at this place.
    Deadlock(Option<usize>),
    PrimaryChanged {
        from: u32,
        why: Why,
    },
    /// The two answers stand at these places.
    Differ {
        index: u32,
        given: Option<usize>,
        agreed: Option<usize>,
    },
    PrimaryMemory,
}

/// A session, if it is one, waits for a reply from now on.
pub fn wait_if(seats: &mut Vec<Seat>, session: Option<u32>)
    ensures { seats.new.items ≡ map_from (change_of session waiting) 1 seats.old.items }
{
    match seat_place(session, seats.len()) {
        Some(place) => seats[place] = Seat::Waiting,
        None => {}
    }
}

/// A session, if it is one and waits, is told this.
pub fn tell_if(seats: &mut Vec<Seat>, session: Option<u32>, reply: Seat)
    ensures { seats.new.items ≡ map_from (change_of session (first_told reply)) 1 seats.old.items }
{
    match seat_place(session, seats.len()) {
        Some(place) => seats[place] = first_told(reply, seats[place]),
        None => {}
    }
}

// Where a session has its seat, if it is one of so many.
fn seat_place(session: Option<u32>, seats: usize) -> Option<usize>
    ensures { IsSeat session seats result }
{
    match session {
        Some(session) if session > 0 && session as usize <= seats => Some(session as usize - 1),
        _ => None,
    }
}

// The first reply is the one that counts.
fn first_told(reply: Seat, seat: Seat) -> Seat
    ensures { result ≡ first_told reply seat }
{
    match seat {
        Seat::Waiting => reply,
        _ => seat,
    }
}
