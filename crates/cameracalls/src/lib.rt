// A camera's own loop over a file and a lent buffer: start and step.
#![tactic(auto)]

ghost use Rattle.std.specs.Prelude.{◌≡◌, not, eqb};
ghost use Rattle.model.specs.StateBuffer.{start_exported, step_exported};
ghost use Rattle.numbers.specs.Form.{told_number};
ghost use Rattle.report.specs.Put.{exported};

use dispatch::Dispatcher;
use values::{Refusal, STATE_BYTES};

// Any file and any buffer: the buffer is looked at before the file.
pub fn start(file: &[u8], state: &mut [u8]) -> u64
    ensures { exported result state.new ≡ start_exported file.now state.old }
{
    numbers::told(start_on(file, state))
}

fn start_on(file: &[u8], state: &mut [u8]) -> Result<u64, Refusal>
    ensures { exported (told_number result) state.new ≡ start_exported file.now state.old }
{
    let form = numbers::form_for(file, STATE_BYTES, state.len());
    form.admission?;
    let held = statebuffer::state_in(state);
    let started = Dispatcher { state: held }.start(form.table);
    started.admission?;
    statebuffer::write_state(state, started.dispatcher.state, statebuffer::quiet());
    Ok(0)
}

// Any number but 0 is a done report.
pub fn said_done(done: u32) -> bool
    ensures { result ≡ not (eqb done 0) }
{
    done != 0
}

pub fn step(file: &[u8], state: &mut [u8], done: u32) -> u64
    ensures { exported result state.new ≡ step_exported file.now state.old done }
{
    numbers::told(step_on(file, state, done))
}

fn step_on(file: &[u8], state: &mut [u8], done: u32) -> Result<u64, Refusal>
    ensures { exported (told_number result) state.new ≡ step_exported file.now state.old done }
{
    let form = numbers::form_for(file, STATE_BYTES, state.len());
    form.admission?;
    let held = statebuffer::state_in(state);
    let stepped = Dispatcher { state: held }.step(form.table, said_done(done));
    let turn = stepped.answer?;
    statebuffer::write_state(state, stepped.next.state, turn);
    Ok(u64::from(turn.owner))
}
