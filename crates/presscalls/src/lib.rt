// A camera's loop on a table with buttons, over a file and a lent buffer: start and step.
#![tactic(auto)]

ghost use Rattle.std.specs.Prelude.{◌≡◌, ◌+◌, ◌*◌};
ghost use Rattle.model.specs.Limits.{word_limit};
ghost use Rattle.model.specs.PressBuffer.{press_start_exported, press_step_exported};
ghost use Rattle.numbers.specs.Form.{told_number};
ghost use Rattle.report.specs.Put.{exported};

use presses::Presses;
use values::{Refusal, STATE_BYTES};

// Any file and any buffer: the buffer is looked at before the file.
pub fn start(file: &[u8], state: &mut [u8]) -> u64
    ensures { exported result state.new ≡ press_start_exported file.now state.old }
{
    numbers::told(start_on(file, state))
}

fn start_on(file: &[u8], state: &mut [u8]) -> Result<u64, Refusal>
    ensures { exported (told_number result) state.new ≡ press_start_exported file.now state.old }
{
    let form = numbers::form_for(file, STATE_BYTES, state.len());
    form.admission?;
    let held = statebuffer::state_in(state);
    let started = Presses { state: held }.start(form.table);
    started.admission?;
    statebuffer::write_state(state, started.presses.state, statebuffer::quiet());
    Ok(0)
}

pub fn step(file: &[u8], state: &mut [u8], done: u32, pressed: u32) -> u64
    ensures { exported result state.new ≡ press_step_exported file.now state.old done pressed }
{
    numbers::told(step_on(file, state, done, pressed))
}

fn step_on(file: &[u8], state: &mut [u8], done: u32, pressed: u32) -> Result<u64, Refusal>
    ensures { exported (told_number result) state.new ≡ press_step_exported file.now state.old done pressed }
{
    let form = numbers::form_for(file, STATE_BYTES, state.len());
    form.admission?;
    let held = statebuffer::state_in(state);
    let stepped = Presses { state: held }.step(form.table, cameracalls::said_done(done), pressed);
    let turn = stepped.answer?;
    statebuffer::write_state(state, stepped.next.state, turn);
    Ok(told(stepped.untaken, turn.owner))
}

// A slot is one word of the answer, so that the presses stand in the other.
fn told(untaken: u32, owner: u32) -> u64
    ensures { result ≡ word_limit * untaken + owner }
{
    4294967296 * u64::from(untaken) + u64::from(owner)
}
