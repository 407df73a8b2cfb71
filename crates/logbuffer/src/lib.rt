// A log's judge in a lent buffer: a dispatcher's state, then words of four bytes and counts of eight, the lowest byte first.
#![tactic(auto)]

ghost use Rattle.std.specs.Prelude.{◌≡◌, ◌+◌, ◌≤◌, length};
ghost use Rattle.model.specs.TableFile.{bytes_of};
ghost use Rattle.model.specs.LogBuffer.{log_bytes, number_of, place_of, finding_of, answer_number, log_buffer_of, log_in};
ghost use Rattle.words.specs.Out.{Fits, Puts};
ghost use Rattle.slotlog.specs.State.{log_state_of};
ghost use Rattle.logbuffer.specs.Parts.{reading_in, words_of};

use slotlog::{Log, Reading};
use values::{Finding, STATE_BYTES};
use words::Out;

const DONE_AT: usize = STATE_BYTES + 4;

const NUMBER_AT: usize = STATE_BYTES + 8;

const PLACE_AT: usize = STATE_BYTES + 12;

const SLOTS_AT: usize = STATE_BYTES + 16;

const BYTES_AT: usize = STATE_BYTES + 24;

// What is found is told as 2^32 times its number, and its place.
const ANSWERS: u64 = 0x1_0000_0000;

#[inline(always)]
pub fn log_in(buffer: &[u8]) -> Log
    requires { length buffer.now ≡ log_bytes }
    ensures { log_state_of result ≡ log_in buffer.now }
{
    let state = statebuffer::state_in(buffer);
    let reading = reading_in(buffer);
    Log { state, reading }
}

#[inline(always)]
fn reading_in(buffer: &[u8]) -> Reading
    requires { length buffer.now ≡ log_bytes }
    ensures { result ≡ reading_in buffer.now }
{
    Reading {
        opened: words::word_at(buffer, STATE_BYTES) != 0,
        done: words::word_at(buffer, DONE_AT) != 0,
        slots: words::long_at(buffer, SLOTS_AT),
        bytes: words::long_at(buffer, BYTES_AT),
        found: finding_of(
            words::word_at(buffer, NUMBER_AT),
            words::word_at(buffer, PLACE_AT),
        ),
    }
}

fn finding_of(number: u32, place: u32) -> Finding
    ensures { result ≡ finding_of number place }
{
    match number {
        0 => Finding::Nothing,
        1 => Finding::Good,
        2 => Finding::Differs(place),
        _ => Finding::Fault { number, place },
    }
}

// The number and the place of what was found.
fn told(found: Finding) -> (u32, u32)
    ensures { result ≡ (number_of found, place_of found) }
{
    match found {
        Finding::Nothing => (0, 0),
        Finding::Good => (1, 0),
        Finding::Differs(slot) => (2, slot),
        Finding::Fault { number, place } => (number, place),
    }
}

// What a call returns that is not refused.
pub fn answer_number(found: Finding) -> u64
    ensures { result ≡ answer_number found }
{
    let (number, place) = told(found);
    ANSWERS * u64::from(number) + u64::from(place)
}

pub fn write_log(buffer: &mut [u8], log: Log)
    requires { length buffer.old ≡ log_bytes }
    ensures { buffer.new ≡ log_buffer_of (log_state_of log) }
{
    let mut out = Out::new(buffer);
    statebuffer::put_state(&mut out, log.state, statebuffer::quiet());
    put_words(&mut out, log.reading);
    out.put_long(log.reading.slots);
    out.put_long(log.reading.bytes);
}

// Whether a record is open and a report waits, and what was found.
fn put_words(out: &mut Out<'_>, reading: Reading)
    requires { Fits (bytes_of (words_of reading)) out.old }
    ensures { Puts (bytes_of (words_of reading)) out.old out.new }
{
    let (number, place) = told(reading.found);
    out.put_word(u32::from(reading.opened));
    out.put_word(u32::from(reading.done));
    out.put_word(number);
    out.put_word(place);
}
