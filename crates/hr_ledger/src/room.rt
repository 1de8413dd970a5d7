//! Room for entries. What may still follow in a turn, and what the replies to jobs that are out may add, never wants for
//! memory: each call reserves its share before anything changes.
ghost use Rattle.std.specs.Prelude.{◌≡◌, ◌+◌, ◌*◌, ◌≤◌, ◌^◌, map, sum, vec_len, vec_capacity, OnOk};
ghost use Rattle.hr_history.specs.ReplicaNumbers.{replica_numbers};
ghost use Rattle.hr_moves.specs.Measure.{room_in, todo_at, jobs_out_in};

use hr_entries::Stored;
use hr_progress::View;
use std::alloc::AllocError;

/// Keeps room for so many more entries than the view needs.
pub fn reserve(stored: &mut Vec<Stored>, view: &View, more: usize) -> Result<(), AllocError>
    requires { more ≤ 3 }
    ensures same { stored.new.items ≡ stored.old.items }
    ensures length { vec_len stored.new ≡ vec_len stored.old }
    ensures capacity { vec_capacity stored.old ≤ vec_capacity stored.new }
    ensures ok { OnOk result (vec_len stored.new + room_in view.now + more ≤ vec_capacity stored.new) }
{
    let need = room(view) + more;
    stored.reserve(need)
}

// No less than the room that a view needs: for the end of each open transaction, for a new primary, and for each replica's part.
fn room(view: &View) -> usize
    ensures enough { room_in view.now ≤ result }
    ensures few { result ≤ 2 ^ 62 }
{
    view.opened().len() + 1 + replica_room(view)
}

// For each replica its conviction and a new primary, the reply to its job and one more, and a preemption of each transaction
// that has an entry there.
fn replica_room(view: &View) -> usize
    ensures enough { sum (map (todo_at view.now) (replica_numbers view.now.f)) + 2 * jobs_out_in view.now ≤ result }
    ensures few { result ≤ 100000 }
{
    let end = 2 * view.f() + 1;
    let mut total = 0;
    'replicas: for replica in 0..end {
        total += 4 + view.entries(replica);
    }
    total
}
