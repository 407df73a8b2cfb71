// The dispatcher: a start on any table, and a step on any table and any state.
#![tactic(auto)]

ghost use Rattle.std.specs.Prelude.{◌≡◌, List, ℕ, cond, ◌+◌, ◌<◌, ◌≤◌, eqb, get_or};
ghost use Rattle.values.specs.declared.Table.{Table};
ghost use Rattle.model.specs.Limits.{task_limit, slot_count_limit};
ghost use Rattle.model.specs.Notation.{bit};
ghost use Rattle.model.specs.Values.{refusal};
ghost use Rattle.model.specs.Dispatcher.{refuse_step, start_of, started, stepped};
ghost use Rattle.wellformed.specs.Ranges.{Ranged};
ghost use Rattle.slots.specs.Columns.{Unpacked};
ghost use Rattle.slots.specs.Slot.{closed};
ghost use Rattle.dispatch.specs.State.{started_of, stepped_of};
ghost use Rattle.dispatch.specs.Accounts.{counted};
ghost use Rattle.dispatch.specs.Step.{Unrefused, state_with, Advanced, taken, step_well_formed, turn_of};

use belonging::Counts;
use slots::columns::Columns;
use slots::{NO_TASK, Numbers};
use values::{Admission, Fault, Refusal, SlotAnswer, State, TASK_LIMIT, Table, Turn};

#[derive(Clone, Copy)]
pub struct Dispatcher {
    pub state: State,
}

#[derive(Clone, Copy)]
pub struct Started {
    pub admission: Admission,
    pub dispatcher: Dispatcher,
}

#[derive(Clone, Copy)]
pub struct Stepped {
    pub answer: SlotAnswer,
    pub next: Dispatcher,
}

impl Dispatcher {
    // A refusal hands the state back as it came, here and by a step.
    #[inline(always)]
    pub fn start(self, t: Table) -> Started
        ensures { started_of result ≡ started t self.state }
    {
        match table::admit(t) {
            Err(refusal) => Started {
                admission: Err(refusal),
                dispatcher: self,
            },
            Ok(()) => Started {
                admission: Ok(()),
                dispatcher: Dispatcher {
                    state: first_state(t),
                },
            },
        }
    }

    pub fn step(self, t: Table, done: bool) -> Stepped
        ensures { stepped_of result ≡ stepped t self.state done }
    {
        let state = self.state;
        match table::admit(t) {
            Err(why) => handed_back(state, why),
            Ok(()) => step_well_formed(state, t, done),
        }
    }
}

// Nothing is given yet.
#[inline(always)]
pub fn first_state(t: Table) -> State
    requires { t.count ≤ task_limit }
    ensures { result ≡ start_of t }
{
    State {
        wait: slots::offsets(t),
        left: [0u32; TASK_LIMIT],
        last: NO_TASK,
        given: [0u64; TASK_LIMIT],
        empty: 0,
    }
}

fn handed_back(d: State, why: Refusal) -> Stepped
    ensures { stepped_of result ≡ refuse_step why d }
{
    Stepped {
        answer: Err(why),
        next: Dispatcher { state: d },
    }
}

// A state that belongs to the table is refused by 9 if it can count no slot more.
fn step_well_formed(d: State, t: Table, done: bool) -> Stepped
    requires { Ranged t }
    ensures { stepped_of result ≡ step_well_formed t d done }
{
    match belonging::belonging(d, t) {
        Err(why) => handed_back(d, why),
        Ok(room) => {
            if room == 0 {
                return handed_back(d, full_state());
            }
            let columns = slots::unpack(t);
            step_taken(d, &columns, done)
        }
    }
}

pub fn full_state() -> Refusal
    ensures { result ≡ refusal 9 0 }
{
    Refusal::new(Fault::FullState, 0)
}

// The four rules of a step that nothing refuses, on a table that is unpacked, and the slot counted.
fn step_taken(d: State, columns: &Columns, done: bool) -> Stepped
    requires { (t : Table) × Unpacked t columns.now × Unrefused t d }
    ensures { (t : Table) → Unpacked t columns.now → Unrefused t d → stepped_of result ≡ taken t d done }
{
    let Moved {
        wait,
        left,
        owner,
        late,
    } = advance(d, columns, done);
    let mut given = d.given;
    count_given(&mut given, owner);
    Stepped {
        answer: Ok(turn_of(owner, late)),
        next: Dispatcher {
            state: State {
                wait,
                left,
                last: owner,
                given,
                empty: count_empty(d.empty, owner),
            },
        },
    }
}

// The lists after a slot, the slot's owner, and the tasks that were closed late.
#[derive(Clone, Copy)]
pub struct Moved {
    pub wait: Numbers,
    pub left: Numbers,
    pub owner: u32,
    pub late: u32,
}

pub fn advance(d: State, columns: &Columns, done: bool) -> Moved
    requires { (t : Table) × Unpacked t columns.now × Unrefused t d }
    ensures { (t : Table) → Unpacked t columns.now → Unrefused t d → Advanced t d done result }
{
    advance_lists(d.wait, d.left, d.last, columns, done)
}

// The four rules on the lists alone: what is counted plays no part in them. Once the late jobs are closed, the slot meets none.
pub fn advance_lists(
    waits: Numbers,
    lefts: Numbers,
    last: u32,
    columns: &Columns,
    done: bool,
) -> Moved
    requires { (t : Table) × (given : List ℕ) × (empty : ℕ) × Unpacked t columns.now × Unrefused t (state_with waits lefts last given empty) }
    ensures { (t : Table) (given : List ℕ) (empty : ℕ) → Unpacked t columns.now
        → Unrefused t (state_with waits lefts last given empty) → Advanced t (state_with waits lefts last given empty) done result }
{
    let mut wait = waits;
    let mut left = after_report(lefts, last, done);
    let late = columns.late_set(&wait, &left);
    columns.close_all(&mut left, late);
    let owner = columns.serve(&mut wait, &mut left).unwrap();
    Moved {
        wait,
        left,
        owner,
        late,
    }
}

// The slot is counted as its owner's, or as empty.
pub fn count_given(given: &mut Counts, owner: u32)
    requires { owner < task_limit → get_or given.old owner 0 < slot_count_limit }
    ensures { given.new ≡ counted given.old owner }
{
    if owner < NO_TASK {
        given[owner as usize] += 1;
    }
}

pub fn count_empty(empty: u64, owner: u32) -> u64
    requires { empty < slot_count_limit }
    ensures { result ≡ empty + bit (eqb owner task_limit) }
{
    if owner == NO_TASK { empty + 1 } else { empty }
}

// A done report closes the open job of the task that ran last.
pub fn hear_report(left: &mut Numbers, last: u32, done: bool)
    ensures { left.new ≡ cond done (closed left.old last) left.old }
{
    if done {
        slots::close(left, last);
    }
}

pub fn after_report(mut left: Numbers, last: u32, done: bool) -> Numbers
    ensures { result ≡ cond done (closed left last) left }
{
    hear_report(&mut left, last, done);
    left
}

pub fn turn_of(owner: u32, late: u32) -> Turn
    ensures { result ≡ turn_of owner late }
{
    Turn {
        owner,
        late,
        closed: u32::count_ones(late),
        lowest: u32::trailing_zeros(late),
    }
}
