// The dispatcher: its slots on g and on f.
use crate::{say, tables};
use dispatch::Dispatcher;
use slots::NO_TASK;
use values::{Admission, SlotAnswer, State, TASK_LIMIT, Table, Turn};

pub fn on_g() {
    let first = step_g(b"g, slot 0", start(b"g", tables::g()), false);
    let second = step_g(b"g, slot 1, done", first, true);
    let third = step_g(b"g, slot 2", second, false);
    let fourth = step_g(b"g, slot 3", third, false);
    step_g(b"g, slot 4", fourth, false);
}

pub fn on_f() {
    let first = step(b"f, slot 0", start(b"f", tables::f()), tables::f(), false);
    step(b"f, slot 1", first, tables::f(), false);
    start(b"b", tables::b());
}

fn step_g(vector: &[u8], d: Dispatcher, done: bool) -> Dispatcher {
    step(vector, d, tables::g(), done)
}

// What stands in a dispatcher before its start does not matter.
fn anything() -> Dispatcher {
    Dispatcher {
        state: State {
            wait: [7u32; TASK_LIMIT],
            left: [7u32; TASK_LIMIT],
            last: 7,
            given: [7u64; TASK_LIMIT],
            empty: 7,
        },
    }
}

fn start(vector: &[u8], t: Table) -> Dispatcher {
    say::about(b"start", vector);
    let started = anything().start(t);
    say_admission(started.admission);
    say_state(started.dispatcher);
    started.dispatcher
}

fn step(vector: &[u8], d: Dispatcher, t: Table, done: bool) -> Dispatcher {
    say::about(b"step", vector);
    let stepped = d.step(t, done);
    say_answer(stepped.answer);
    say_state(stepped.next);
    stepped.next
}

fn say_admission(admission: Admission) {
    if let Err(why) = admission {
        say::refusal(why);
        say::words(b", ");
    }
}

fn say_answer(answer: SlotAnswer) {
    match answer {
        Err(why) => say::refusal(why),
        Ok(turn) => say_turn(turn),
    }
    say::words(b", ");
}

fn say_turn(turn: Turn) {
    say::words(b"owner ");
    say_task(turn.owner);
    say::words(b", late ");
    say::small(turn.late);
    say::words(b", closed ");
    say::small(turn.closed);
    say::words(b", lowest ");
    say_task(turn.lowest);
}

fn say_state(d: Dispatcher) {
    let state = d.state;
    say::words(b"wait ");
    say::numbers(state.wait);
    say::words(b", left ");
    say::numbers(state.left);
    say::words(b", last ");
    say_task(state.last);
    say::words(b"\n");
}

fn say_task(k: u32) {
    if k == NO_TASK {
        say::words(b"none");
    } else {
        say::small(k);
    }
}
