// The dispatcher of tables with buttons: a start on any table, and a step on any table, any state and any presses.
#![tactic(auto)]

ghost use Rattle.std.specs.Prelude.{◌≡◌};
ghost use Rattle.model.specs.Presses.{started_mixed, refuse_pressed, press_taken, stepped_pressed};
ghost use Rattle.wellformed.specs.Ranges.{Ranged};
ghost use Rattle.presses.specs.State.{started_of, pressed_of};
ghost use Rattle.presses.specs.Step.{Pressable, press_well_formed, Advanced};

use slots::Numbers;
use values::{Admission, Refusal, SlotAnswer, State, Table};

// A dispatcher's state. A button's wait is the slots until it may be pressed again.
#[derive(Clone, Copy)]
pub struct Presses {
    pub state: State,
}

#[derive(Clone, Copy)]
pub struct Started {
    pub admission: Admission,
    pub presses: Presses,
}

// The answer of a step, the presses that it did not take, as a set of bits, and the successor.
#[derive(Clone, Copy)]
pub struct Pressed {
    pub answer: SlotAnswer,
    pub untaken: u32,
    pub next: Presses,
}

impl Presses {
    // A refusal hands the state back as it came, here and by a step.
    pub fn start(self, t: Table) -> Started
        ensures { started_of result ≡ started_mixed t self.state }
    {
        match table::admit_mixed(t) {
            Err(refusal) => Started {
                admission: Err(refusal),
                presses: self,
            },
            Ok(()) => Started {
                admission: Ok(()),
                presses: Presses {
                    state: dispatch::first_state(t),
                },
            },
        }
    }

    // A refused step takes no press.
    pub fn step(self, t: Table, done: bool, pressed: u32) -> Pressed
        ensures { pressed_of result ≡ stepped_pressed t self.state done pressed }
    {
        let state = self.state;
        match table::admit_mixed(t) {
            Err(why) => handed_back(state, why, pressed),
            Ok(()) => step_well_formed(state, t, done, pressed),
        }
    }
}

fn handed_back(d: State, why: Refusal, pressed: u32) -> Pressed
    ensures { pressed_of result ≡ refuse_pressed why d pressed }
{
    Pressed {
        answer: Err(why),
        untaken: pressed,
        next: Presses { state: d },
    }
}

// A state that belongs to the table is refused by 9 if it can count no slot more.
fn step_well_formed(d: State, t: Table, done: bool, pressed: u32) -> Pressed
    requires { Ranged t }
    ensures { pressed_of result ≡ press_well_formed t d done pressed }
{
    match belonging::belonging(d, t) {
        Err(why) => handed_back(d, why, pressed),
        Ok(room) => {
            if room == 0 {
                return handed_back(d, dispatch::full_state(), pressed);
            }
            step_taken(d, t, done, pressed)
        }
    }
}

// A step that nothing refuses, and the slot counted.
fn step_taken(d: State, t: Table, done: bool, pressed: u32) -> Pressed
    requires { Pressable t d }
    ensures { pressed_of result ≡ press_taken t d done pressed }
{
    let Moved {
        wait,
        left,
        owner,
        late,
        untaken,
    } = advance(d, t, done, pressed);
    let mut given = d.given;
    dispatch::count_given(&mut given, owner);
    Pressed {
        answer: Ok(dispatch::turn_of(owner, late)),
        untaken,
        next: Presses {
            state: State {
                wait,
                left,
                last: owner,
                given,
                empty: dispatch::count_empty(d.empty, owner),
            },
        },
    }
}

// The lists after a slot, the slot's owner, the tasks that were closed late, and the presses that were not taken.
#[derive(Clone, Copy)]
pub struct Moved {
    pub wait: Numbers,
    pub left: Numbers,
    pub owner: u32,
    pub late: u32,
    pub untaken: u32,
}

// A free button that nobody presses gets wait 1 first: `serve` then releases no job of it, and leaves it free.
fn advance(d: State, t: Table, done: bool, pressed: u32) -> Moved
    requires { Pressable t d }
    ensures { Advanced t d done pressed result }
{
    let columns = slots::unpack(t);
    let mut wait = d.wait;
    let mut left = d.left;
    let free = slots::free_set(t, wait);
    let untaken = slots::only_in(pressed, free);
    let idle = slots::only_in(free, pressed);
    dispatch::hear_report(&mut left, d.last, done);
    let late = columns.late_set(&wait, &left);
    columns.close_all(&mut left, late);
    slots::put_all(&mut wait, idle, 1, columns.count);
    let owner = columns.serve(&mut wait, &mut left).unwrap();
    Moved {
        wait,
        left,
        owner,
        late,
        untaken,
    }
}
