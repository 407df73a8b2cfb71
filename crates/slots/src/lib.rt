// One slot, over two numbers for each task: its wait, the slots until its next release, and the slots left to its open job.
#![tactic(auto)]

ghost use Rattle.std.specs.Prelude.{◌≡◌, ℕ, Bool, not, ◌&&◌, ◌+◌, ◌*◌, ◌^◌, ◌≤◌, ◌<◌, ltb, eqb};
ghost use Rattle.model.specs.Limits.{task_limit, slot_limit};
ghost use Rattle.model.specs.Notation.{bit, bits, in_set};
ghost use Rattle.model.specs.Tasks.{is_button};
ghost use Rattle.model.specs.Dispatcher.{start_of};
ghost use Rattle.wellformed.specs.Ranges.{Ranged};
ghost use Rattle.slots.specs.Columns.{Unpacked};
ghost use Rattle.slots.specs.Slot.{closed, put_all, is_free, none_left};

use values::{TASK_LIMIT, Table, Task};

pub mod columns;

pub use columns::Columns;

// Where a task is named, this is none.
pub const NO_TASK: u32 = TASK_LIMIT as u32;

// A number for each task.
pub type Numbers = [u32; TASK_LIMIT];

// A rank for each task.
pub type Ranks = [u16; TASK_LIMIT];

pub fn unpack(t: Table) -> Columns
    requires { Ranged t }
    ensures { Unpacked t result }
{
    let mut period = [0u32; TASK_LIMIT];
    let mut cost = [0u32; TASK_LIMIT];
    let mut slack = [0u32; TASK_LIMIT];
    let mut rank = [0u16; TASK_LIMIT];
    for (i, task) in t.tasks[..t.count].iter().enumerate() {
        period[i] = task.period;
        cost[i] = task.cost;
        slack[i] = task.period.saturating_sub(task.deadline);
        rank[i] = rank_of(*task);
    }
    Columns {
        rank,
        count: t.count,
        period,
        cost,
        slack,
    }
}

// The waits at the start.
pub fn offsets(t: Table) -> Numbers
    requires { t.count ≤ task_limit }
    ensures { result ≡ (start_of t).wait }
{
    let mut wait = [0u32; TASK_LIMIT];
    for (i, task) in t.tasks[..t.count].iter().enumerate() {
        wait[i] = sorts::offset_of(*task);
    }
    wait
}

// Of two tasks that tie, the one of lower rank goes first, and of one rank the lower number.
pub fn rank_of(task: Task) -> u16
    requires { task.period ≤ slot_limit }
    ensures { result ≡ task.period }
{
    task.period as u16
}

// The members below n, as a set of bits.
fn members<F: Fn(usize) -> bool>(n: usize, is_member: F) -> u32
    requires few { n ≤ task_limit }
    requires callable { (i : ℕ) → i < n → F.pre is_member i }
    ensures { (p : ℕ → Bool) → ((i : ℕ) (b : Bool) → i < n → F.post is_member i b → b ≡ p i) → result ≡ bits (λ i. ltb i n && p i) task_limit }
{
    let mut set = 0;
    for i in 0..n {
        set = joined(set, i, is_member(i));
    }
    set
}

// The set with i, if i is a member; the others are below i.
fn joined(set: u32, i: usize, member: bool) -> u32
    requires { (i < task_limit) × (set < 2 ^ i) }
    ensures { result ≡ set + bit member * 2 ^ i }
{
    if member { set | (1u32 << i) } else { set }
}

fn is_member(set: u32, i: usize) -> bool
    requires { i < task_limit }
    ensures { result ≡ in_set set i }
{
    (set >> i) & 1 == 1
}

// The members of one set of tasks that are not in another.
pub fn only_in(set: u32, others: u32) -> u32
    ensures { result ≡ bits (λ i. in_set set i && not (in_set others i)) task_limit }
{
    members(TASK_LIMIT, |i| is_member(set, i) && !is_member(others, i))
}

// The buttons that may be pressed, as a set of bits.
pub fn free_set(t: Table, wait: Numbers) -> u32
    requires { t.count ≤ task_limit }
    ensures { result ≡ bits (is_free t wait) task_limit }
{
    members(t.count, |i| may_be_pressed(t.tasks[i], wait[i]))
}

fn may_be_pressed(task: Task, wait: u32) -> bool
    ensures { result ≡ (is_button task && eqb wait 0) }
{
    sorts::is_button(task) && wait == 0
}

// Each of the n tasks that is in the set gets this number.
pub fn put_all(numbers: &mut Numbers, set: u32, number: u32, n: usize)
    requires { n ≤ task_limit }
    ensures { numbers.new ≡ put_all numbers.old set number n }
{
    for (i, own) in numbers[..n].iter_mut().enumerate() {
        if is_member(set, i) {
            *own = number;
        }
    }
}

// The job of a task is closed; that of no task is none.
pub fn close(left: &mut Numbers, task: u32)
    ensures { left.new ≡ closed left.old task }
{
    if task < NO_TASK {
        left[task as usize] = 0;
    }
}

// None of the n tasks has a slot left.
pub fn none_left(left: &Numbers, n: usize) -> bool
    requires { n ≤ task_limit }
    ensures { result ≡ none_left left.now n }
{
    left[..n].iter().all(|slots| *slots == 0)
}
