// The judge of a camera's log over a file and a lent buffer: start, pieces, finish.
#![tactic(auto)]

ghost use Rattle.std.specs.Prelude.{◌≡◌};
ghost use Rattle.values.specs.declared.Table.{Table};
ghost use Rattle.model.specs.Log.{Log as LogState, Fed as LogFed};
ghost use Rattle.model.specs.LogBuffer.{log_bytes, log_in, log_written, log_start_exported, log_feed_exported, log_finish_exported};
ghost use Rattle.model.specs.StateBuffer.{on_file};
ghost use Rattle.slotlog.specs.State.{log_state_of, fed_of};
ghost use Rattle.numbers.specs.Form.{told_number};
ghost use Rattle.report.specs.Put.{exported};

use slotlog::{Fed, Log};
use values::{LOG_STATE_BYTES, Refusal, Table};

// Any file and any buffer: the buffer is looked at before the file.
pub fn log_start(file: &[u8], state: &mut [u8]) -> u64
    ensures { exported result state.new ≡ log_start_exported file.now state.old }
{
    numbers::told(on_log(file, state, |log, table| log.start(table)))
}

pub fn log_feed(file: &[u8], state: &mut [u8], piece: &[u8]) -> u64
    ensures { exported result state.new ≡ log_feed_exported file.now state.old piece.now }
{
    numbers::told(on_log(file, state, |log, table| log.feed(table, piece)))
}

pub fn log_finish(file: &[u8], state: &mut [u8]) -> u64
    ensures { exported result state.new ≡ log_finish_exported file.now state.old }
{
    numbers::told(on_log(file, state, |log, table| log.finish(table)))
}

// A call on the log that the buffer holds; the buffer is written unless it refuses.
#[inline(always)]
fn on_log<F: FnOnce(Log, Table) -> Fed>(
    file: &[u8],
    state: &mut [u8],
    call: F,
) -> Result<u64, Refusal>
    requires { F.IsAlwaysCallable call }
    ensures { (go : LogState → Table → LogFed) → ((l : Log) (t : Table) (f : Fed) → F.post call l t f → fed_of f ≡ go (log_state_of l) t)
        → exported (told_number result) state.new
        ≡ on_file log_bytes file.now state.old (λ t. let f = go (log_in state.old) t in log_written state.old f.log f.admission) }
{
    let form = numbers::form_for(file, LOG_STATE_BYTES, state.len());
    form.admission?;
    let said = call(logbuffer::log_in(state), form.table);
    said.admission?;
    logbuffer::write_log(state, said.log);
    Ok(logbuffer::answer_number(said.log.reading.found))
}
