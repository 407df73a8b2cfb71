// The dispatcher's state in a lent buffer: words of four bytes and counts of eight, the lowest byte first.
#![tactic(auto)]

ghost use Rattle.std.specs.Prelude.{◌≡◌, ◌+◌, ◌*◌, ◌≤◌, length};
ghost use Rattle.model.specs.Limits.{task_limit};
ghost use Rattle.model.specs.TableFile.{bytes_of};
ghost use Rattle.model.specs.StateBuffer.{state_bytes, halves, buffer_of, words_in, counts_in, state_in, quiet};
ghost use Rattle.words.specs.Out.{Fits, Puts};

use belonging::Counts;
use slots::{NO_TASK, Numbers};
use std::array;
use values::{State, TASK_LIMIT, Turn};
use words::Out;

const WORD_BYTES: usize = 4;

const COUNT_BYTES: usize = 8;

// Behind the waits and the slots left, and behind the last-run task and what the step said.
const LAST_AT: usize = 2 * TASK_LIMIT * WORD_BYTES;

const COUNTS_AT: usize = LAST_AT + 4 * WORD_BYTES;

const EMPTY_AT: usize = COUNTS_AT + TASK_LIMIT * COUNT_BYTES;

// The state at the front of a buffer.
#[inline(always)]
pub fn state_in(buffer: &[u8]) -> State
    requires { state_bytes ≤ length buffer.now }
    ensures { result ≡ state_in buffer.now }
{
    State {
        wait: words_in(buffer, 0),
        left: words_in(buffer, TASK_LIMIT * WORD_BYTES),
        last: words::word_at(buffer, LAST_AT),
        given: counts_in(buffer, COUNTS_AT),
        empty: words::long_at(buffer, EMPTY_AT),
    }
}

#[inline(always)]
fn words_in(buffer: &[u8], at: usize) -> Numbers
    requires { at + 4 * task_limit ≤ length buffer.now }
    ensures { result ≡ words_in buffer.now at }
{
    array::from_fn(|i| words::word_at(buffer, at + WORD_BYTES * i))
}

#[inline(always)]
fn counts_in(buffer: &[u8], at: usize) -> Counts
    requires { at + 8 * task_limit ≤ length buffer.now }
    ensures { result ≡ counts_in buffer.now at }
{
    array::from_fn(|i| words::long_at(buffer, at + COUNT_BYTES * i))
}

pub fn write_state(buffer: &mut [u8], d: State, turn: Turn)
    requires { length buffer.old ≡ state_bytes }
    ensures { buffer.new ≡ buffer_of d turn }
{
    let mut out = Out::new(buffer);
    put_state(&mut out, d, turn);
}

#[inline(always)]
pub fn put_state(out: &mut Out<'_>, d: State, turn: Turn)
    requires { Fits (buffer_of d turn) out.old }
    ensures { Puts (buffer_of d turn) out.old out.new }
{
    put_words(out, d.wait);
    put_words(out, d.left);
    out.put_word(d.last);
    out.put_word(turn.late);
    out.put_word(turn.closed);
    out.put_word(turn.lowest);
    put_counts(out, d.given);
    out.put_long(d.empty);
}

#[inline(always)]
pub fn put_words(out: &mut Out<'_>, words: Numbers)
    requires { Fits (bytes_of words) out.old }
    ensures { Puts (bytes_of words) out.old out.new }
{
    for word in words {
        out.put_word(word);
    }
}

#[inline(always)]
fn put_counts(out: &mut Out<'_>, counts: Counts)
    requires { Fits (bytes_of (halves counts)) out.old }
    ensures { Puts (bytes_of (halves counts)) out.old out.new }
{
    for count in counts {
        out.put_long(count);
    }
}

// Where no step stands behind a state.
pub fn quiet() -> Turn
    ensures { result ≡ quiet }
{
    Turn {
        owner: NO_TASK,
        late: 0,
        closed: 0,
        lowest: NO_TASK,
    }
}
