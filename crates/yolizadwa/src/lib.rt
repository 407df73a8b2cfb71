// The exported calls, as C makes them: each is a call of its kind, and nothing more.
#![tactic(auto)]

ghost use Rattle.std.specs.Prelude.{◌≡◌};
ghost use Rattle.model.specs.Report.{quick_exported, distance_exported, Checked};
ghost use Rattle.model.specs.AnswerBuffer.{Answered};
ghost use Rattle.model.specs.ReportRead.{passes_exported};
ghost use Rattle.model.specs.StateBuffer.{start_exported, step_exported};
ghost use Rattle.model.specs.PressBuffer.{press_start_exported, press_step_exported};
ghost use Rattle.model.specs.LogBuffer.{log_start_exported, log_feed_exported, log_finish_exported};
ghost use Rattle.model.specs.Writer.{write_exported};
ghost use Rattle.model.specs.PlainText.{from_text_exported, to_text_exported};
ghost use Rattle.model.specs.Easing.{eased_exported};
ghost use Rattle.model.specs.Largest.{largest_exported};
ghost use Rattle.model.specs.Room.{room_exported};

use leaping::Leaping;
use plain::Plain;

#[unsafe(no_mangle)]
pub extern "C" fn yolizadwa_check(file: &[u8], report: &mut [u8]) -> u64
    ensures { Checked file.now report.old (record { number = result; buffer = report.new }) }
{
    checkcalls::check(file, report, Leaping)
}

// The same by the plain engine, slot by slot.
#[unsafe(no_mangle)]
pub extern "C" fn yolizadwa_check_plainly(file: &[u8], report: &mut [u8]) -> u64
    ensures { Checked file.now report.old (record { number = result; buffer = report.new }) }
{
    checkcalls::check(file, report, Plain)
}

// The same answer as numbers.
#[unsafe(no_mangle)]
pub extern "C" fn yolizadwa_answer(file: &[u8], answer: &mut [u8]) -> u64
    ensures { Answered file.now answer.old (record { number = result; buffer = answer.new }) }
{
    checkcalls::answer(file, answer)
}

#[unsafe(no_mangle)]
pub extern "C" fn yolizadwa_passes(report: &[u8]) -> u64
    ensures { result ≡ passes_exported report.now }
{
    checkcalls::passes(report)
}

#[unsafe(no_mangle)]
pub extern "C" fn yolizadwa_quick(file: &[u8]) -> u64
    ensures { result ≡ quick_exported file.now }
{
    filecalls::quick_file(file)
}

#[unsafe(no_mangle)]
pub extern "C" fn yolizadwa_distance(file: &[u8]) -> u64
    ensures { result ≡ distance_exported file.now }
{
    filecalls::distance_file(file)
}

#[unsafe(no_mangle)]
pub extern "C" fn yolizadwa_largest(file: &[u8], task: u32) -> u64
    ensures { result ≡ largest_exported file.now task }
{
    filecalls::largest_file(file, task)
}

#[unsafe(no_mangle)]
pub extern "C" fn yolizadwa_room(file: &[u8], task: u32) -> u64
    ensures { result ≡ room_exported file.now task }
{
    filecalls::room_file(file, task)
}

#[unsafe(no_mangle)]
pub extern "C" fn yolizadwa_eased(old: &[u8], new: &[u8]) -> u64
    ensures { result ≡ eased_exported old.now new.now }
{
    filecalls::eased_files(old, new)
}

#[unsafe(no_mangle)]
pub extern "C" fn yolizadwa_start(file: &[u8], state: &mut [u8]) -> u64
    ensures { record { number = result; buffer = state.new } ≡ start_exported file.now state.old }
{
    cameracalls::start(file, state)
}

#[unsafe(no_mangle)]
pub extern "C" fn yolizadwa_step(file: &[u8], state: &mut [u8], done: u32) -> u64
    ensures { record { number = result; buffer = state.new } ≡ step_exported file.now state.old done }
{
    cameracalls::step(file, state, done)
}

#[unsafe(no_mangle)]
pub extern "C" fn yolizadwa_press_start(file: &[u8], state: &mut [u8]) -> u64
    ensures { record { number = result; buffer = state.new } ≡ press_start_exported file.now state.old }
{
    presscalls::start(file, state)
}

#[unsafe(no_mangle)]
pub extern "C" fn yolizadwa_press_step(
    file: &[u8],
    state: &mut [u8],
    done: u32,
    pressed: u32,
) -> u64
    ensures { record { number = result; buffer = state.new } ≡ press_step_exported file.now state.old done pressed }
{
    presscalls::step(file, state, done, pressed)
}

#[unsafe(no_mangle)]
pub extern "C" fn yolizadwa_log_start(file: &[u8], state: &mut [u8]) -> u64
    ensures { record { number = result; buffer = state.new } ≡ log_start_exported file.now state.old }
{
    logcalls::log_start(file, state)
}

#[unsafe(no_mangle)]
pub extern "C" fn yolizadwa_log_feed(file: &[u8], state: &mut [u8], piece: &[u8]) -> u64
    ensures { record { number = result; buffer = state.new } ≡ log_feed_exported file.now state.old piece.now }
{
    logcalls::log_feed(file, state, piece)
}

#[unsafe(no_mangle)]
pub extern "C" fn yolizadwa_log_finish(file: &[u8], state: &mut [u8]) -> u64
    ensures { record { number = result; buffer = state.new } ≡ log_finish_exported file.now state.old }
{
    logcalls::log_finish(file, state)
}

#[unsafe(no_mangle)]
pub extern "C" fn yolizadwa_write(words: &[u32], budget: u64, file: &mut [u8]) -> u64
    ensures { record { number = result; buffer = file.new } ≡ write_exported words.now budget file.old }
{
    writecalls::write_rows(words, budget, file)
}

#[unsafe(no_mangle)]
pub extern "C" fn yolizadwa_from_text(text: &[u8], file: &mut [u8]) -> u64
    ensures { record { number = result; buffer = file.new } ≡ from_text_exported text.now file.old }
{
    writecalls::file_from_text(text, file)
}

#[unsafe(no_mangle)]
pub extern "C" fn yolizadwa_to_text(file: &[u8], text: &mut [u8]) -> u64
    ensures { record { number = result; buffer = text.new } ≡ to_text_exported file.now text.old }
{
    writecalls::text_from_file(file, text)
}
