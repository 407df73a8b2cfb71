// A walk to the first idle instant after 0, for the distance test.
#![tactic(auto)]

ghost use Rattle.std.specs.Prelude.{◌≡◌, ◌≤◌};
ghost use Rattle.model.specs.Limits.{task_limit, round_limit};
ghost use Rattle.model.specs.Tasks.{round, load};
ghost use Rattle.model.specs.Patterns.{starting_at, calm};
ghost use Rattle.slots.specs.Slot.{at};
ghost use Rattle.wellformed.specs.Ranges.{Ranged};

use slots::Numbers;
use values::{ROUND_LIMIT, Sort, Table, Task};

// The table with other offsets.
#[tactic(auto, unfolding(model::specs::Patterns::starting_at))]
pub fn starting(t: Table, offsets: Numbers) -> Table
    requires { t.count ≤ task_limit }
    ensures { result ≡ starting_at t (at offsets) }
{
    let mut started = t;
    for (i, task) in t.tasks[..t.count].iter().enumerate() {
        started.tasks[i] = Task {
            sort: Sort::Periodic(offsets[i]),
            ..*task
        };
    }
    started
}

// Whether no deadline is missed up to the first idle instant. The walk ends there, or at the first late deadline.
pub fn is_calm(t: Table) -> bool
    requires ranged { Ranged t }
    requires t_bound { load t ≤ round t }
    requires t_bound_2 { round t ≤ round_limit }
    ensures { result ≡ calm t }
{
    let course = leaping::search(t, ROUND_LIMIT, 0, true);
    0 < course.idle
}
