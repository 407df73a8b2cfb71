// The judge of a camera's log, in pieces cut anywhere: any table, any state and any bytes.
#![tactic(auto)]

ghost use Rattle.std.specs.Prelude.{◌≡◌, false, true, cond, not, ◌&&◌, ◌||◌, ◌≤◌, ltb, eqb, length, Ok, Err};
ghost use Rattle.values.specs.declared.Table.{Table};
ghost use Rattle.values.specs.declared.Finding.{Finding};
ghost use Rattle.values.specs.Numbers.{number_of};
ghost use Rattle.model.specs.Limits.{log_limit};
ghost use Rattle.model.specs.Log.{unread, log_started, fed, log_finished, log_admitted, at_end, read_all};
ghost use Rattle.model.specs.LogMeaning.{Final};
ghost use Rattle.slots.specs.Columns.{Unpacked};
ghost use Rattle.slotlog.specs.State.{joined, log_state_of, fed_of};
ghost use Rattle.slotlog.specs.Bytes.{Readable, ReadTo, ends_slot, is_due, slot_on, stopped_at, passed_on, done_heard, kind_heard, other_read};

use dispatch::Dispatcher;
use slots::NO_TASK;
use slots::columns::Columns;
use values::{Admission, Fault, Finding, LOG_LIMIT, Refusal, SLOT_COUNT_LIMIT, State, Table};

// A block whose lists are spoilt is read twice, so it is short.
const BLOCK: usize = 256;

// The place of 8 for a log whose counts are wrong.
const COUNT_PLACE: u32 = NO_TASK + 2;

// The kinds of a log's bytes, section 7.3 of the specification: a task's slot, whose number follows; an empty one; a done report; the end.
#[derive(Clone, Copy, PartialEq, Eq)]
pub enum Kind {
    Task = 16,
    Empty = 17,
    Done = 18,
    End = 19,
}

// What is kept between pieces beside the dispatcher: whether a task's record is open, whose number is still to come; whether a
// done report waits for the next slot; the slots and the bytes that were read; and what was found.
#[derive(Clone, Copy)]
pub struct Reading {
    pub opened: bool,
    pub done: bool,
    pub slots: u64,
    pub bytes: u64,
    pub found: Finding,
}

#[derive(Clone, Copy)]
pub struct Log {
    pub state: State,
    pub reading: Reading,
}

#[derive(Clone, Copy)]
pub struct Fed {
    pub admission: Admission,
    pub log: Log,
}

impl Log {
    // A refusal hands the log back as it came, here and by a piece and the finish.
    pub fn start(self, t: Table) -> Fed
        ensures { fed_of result ≡ log_started t (log_state_of self) }
    {
        let started = Dispatcher { state: self.state }.start(t);
        match started.admission {
            Ok(()) => Fed {
                admission: Ok(()),
                log: unread(started.dispatcher.state),
            },
            Err(why) => handed_back(self, why),
        }
    }

    pub fn feed(self, t: Table, piece: &[u8]) -> Fed
        ensures { fed_of result ≡ fed t (log_state_of self) piece.now }
    {
        match admission(self, t) {
            Ok(()) => Fed {
                admission: Ok(()),
                log: read_all(self, t, piece),
            },
            Err(why) => handed_back(self, why),
        }
    }

    // The answer is what is then found; it is kept, and so a second finish says the same.
    pub fn finish(self, t: Table) -> Fed
        ensures { fed_of result ≡ log_finished t (log_state_of self) }
    {
        match admission(self, t) {
            Ok(()) => Fed {
                admission: Ok(()),
                log: close(self),
            },
            Err(why) => handed_back(self, why),
        }
    }
}

#[inline(always)]
fn handed_back(log: Log, why: Refusal) -> Fed
    ensures { fed_of result ≡ record { admission = Err why; log = log_state_of log } }
{
    Fed {
        admission: Err(why),
        log,
    }
}

// A log of which nothing is read.
fn unread(state: State) -> Log
    ensures { log_state_of result ≡ unread state }
{
    Log {
        state,
        reading: Reading {
            opened: false,
            done: false,
            slots: 0,
            bytes: 0,
            found: Finding::Nothing,
        },
    }
}

// Whether the log belongs to the table: the table's refusals, then the places of 8, the dispatcher's and that of the counts.
fn admission(log: Log, t: Table) -> Admission
    ensures { result ≡ log_admitted t (log_state_of log) }
{
    table::admit(t)?;
    let room = belonging::belonging(log.state, t)?;
    if miscounted(
        log.reading.slots,
        log.reading.bytes,
        SLOT_COUNT_LIMIT - room,
    ) {
        return Err(Refusal::new(Fault::StrangeState, COUNT_PLACE));
    }
    Ok(())
}

fn miscounted(slots: u64, bytes: u64, counted: u64) -> bool
    ensures { result ≡ (not (eqb slots counted) || ltb bytes slots || ltb log_limit bytes) }
{
    slots != counted || bytes < slots || LOG_LIMIT < bytes
}

fn close(log: Log) -> Log
    requires { log.reading.bytes ≤ log_limit }
    ensures { log_state_of result ≡ joined log.state (stopped_at log.reading (at_end log.reading.bytes log.reading.found)) }
{
    let found = at_end(log.reading.bytes, log.reading.found);
    Log {
        reading: found_in(log.reading, found),
        ..log
    }
}

// A log that has no end is 43, with its length.
fn at_end(bytes: u64, found: Finding) -> Finding
    requires { bytes ≤ log_limit }
    ensures { result ≡ at_end bytes found }
{
    match found {
        Finding::Nothing => Finding::Fault {
            number: u32::from(Fault::LogNoEnd),
            place: bytes as u32,
        },
        other => other,
    }
}

// The table is unpacked once for all bytes of the piece.
fn read_all(log: Log, t: Table, piece: &[u8]) -> Log
    requires { log_admitted t (log_state_of log) ≡ Ok tt }
    ensures { log_state_of result ≡ read_all t (log_state_of log) piece.now }
{
    let columns = slots::unpack(t);
    read_blocks(log, &columns, piece)
}

// A fault or a difference is final.
fn read_blocks(log: Log, columns: &Columns, piece: &[u8]) -> Log
    requires { (t : Table) × Unpacked t columns.now × Readable t (log_state_of log) }
    ensures { (t : Table) → Unpacked t columns.now → Readable t (log_state_of log)
        → log_state_of result ≡ read_all t (log_state_of log) piece.now }
{
    let mut next = log;
    let mut rest = piece;
    while !rest.is_empty() {
        if is_final(next.reading) {
            return next;
        }
        let (block, tail) = rest.split_at(BLOCK.min(rest.len()));
        next = read_block(next, columns, block);
        rest = tail;
    }
    next
}

// A fault or a difference: no byte changes it.
fn is_final(reading: Reading) -> bool
    ensures { result ≡ true → Final reading.found }
{
    matches!(reading.found, Finding::Differs(_) | Finding::Fault { .. })
}

// A block is read in place, and on copies from where that stops.
#[inline(always)]
fn read_block(log: Log, columns: &Columns, block: &[u8]) -> Log
    requires { (t : Table) × Unpacked t columns.now × Readable t (log_state_of log) }
    ensures { (t : Table) → Unpacked t columns.now → Readable t (log_state_of log)
        → ReadTo t (log_state_of log) block.now (length block.now) (log_state_of result) }
{
    let run = read_in_place(log, columns, block);
    if run.at == block.len() {
        return run.log;
    }
    read_bytes(run.log, columns, &block[run.at..])
}

// How far a block is read, and the log then.
#[derive(Clone, Copy)]
struct Run {
    at: usize,
    log: Log,
}

// The lists step in place up to the first finding. A slot that differs or has a late job spoils them, so the block counts as unread.
#[inline(always)]
fn read_in_place(log: Log, columns: &Columns, block: &[u8]) -> Run
    requires { (t : Table) × Unpacked t columns.now × Readable t (log_state_of log) }
    ensures within { result.at ≤ length block.now }
    ensures read { (t : Table) → Unpacked t columns.now → Readable t (log_state_of log)
        → ReadTo t (log_state_of log) block.now result.at (log_state_of result.log) }
{
    if is_found(log.reading) {
        return Run { at: 0, log };
    }
    // As locals, and left at a finding: else a slot took up to 1.2 times as long.
    let State {
        mut wait,
        mut left,
        mut last,
        mut given,
        mut empty,
    } = log.state;
    let mut reading = log.reading;
    let mut at = block.len();
    for (i, byte) in block.iter().enumerate() {
        if ends_slot(reading, *byte) {
            dispatch::hear_report(&mut left, last, reading.done);
            match columns.serve(&mut wait, &mut left) {
                Some(owner) if is_due(reading.opened, *byte, columns.count, owner) => {
                    last = owner;
                    dispatch::count_given(&mut given, owner);
                    empty = dispatch::count_empty(empty, owner);
                    reading = one_slot(reading);
                }
                _ => return Run { at: 0, log },
            }
        } else {
            reading = read_other(reading, *byte);
            if is_found(reading) {
                at = i + 1;
                break;
            }
        }
    }
    Run {
        at,
        log: Log {
            state: State {
                wait,
                left,
                last,
                given,
                empty,
            },
            reading,
        },
    }
}

fn is_found(reading: Reading) -> bool {
    !matches!(reading.found, Finding::Nothing)
}

// Reads on copies of the lists, so that a slot that differs leaves them as they were.
fn read_bytes(log: Log, columns: &Columns, bytes: &[u8]) -> Log
    requires { (t : Table) × Unpacked t columns.now × Readable t (log_state_of log) }
    ensures { (t : Table) → Unpacked t columns.now → Readable t (log_state_of log)
        → ReadTo t (log_state_of log) bytes.now (length bytes.now) (log_state_of result) }
{
    // As locals: with the state whole a log of late jobs took 1.15 times as long.
    let State {
        mut wait,
        mut left,
        mut last,
        mut given,
        mut empty,
    } = log.state;
    let mut reading = log.reading;
    for byte in bytes {
        if ends_slot(reading, *byte) {
            let moved = dispatch::advance_lists(wait, left, last, columns, reading.done);
            if is_due(reading.opened, *byte, columns.count, moved.owner) {
                wait = moved.wait;
                left = moved.left;
                last = moved.owner;
                dispatch::count_given(&mut given, last);
                empty = dispatch::count_empty(empty, last);
                reading = one_slot(reading);
            } else {
                reading = found_in(reading, Finding::Differs(reading.slots as u32));
            }
        } else {
            reading = read_other(reading, *byte);
        }
    }
    Log {
        state: State {
            wait,
            left,
            last,
            given,
            empty,
        },
        reading,
    }
}

// This byte makes the record of a slot whole.
fn ends_slot(reading: Reading, byte: u8) -> bool
    ensures { result ≡ ends_slot reading.found reading.bytes reading.opened byte }
{
    matches!(reading.found, Finding::Nothing) && at_slot(reading.bytes, reading.opened, byte)
}

fn at_slot(bytes: u64, opened: bool, byte: u8) -> bool
    ensures { result ≡ cond (eqb bytes log_limit) false (opened || eqb byte 17) }
{
    bytes != LOG_LIMIT && (opened || byte == Kind::Empty as u8)
}

// The slot is the dispatcher's.
fn one_slot(reading: Reading) -> Reading
    requires { (reading.slots ≤ log_limit) × (reading.bytes ≤ log_limit) }
    ensures { result ≡ slot_on reading }
{
    Reading {
        slots: reading.slots + 1,
        ..pass(reading, false, false, Finding::Nothing)
    }
}

// The record is that of the owner: an empty slot's, or a task's, whose number may lie outside the table.
fn is_due(opened: bool, byte: u8, n: usize, owner: u32) -> bool
    ensures { result ≡ is_due opened byte n owner }
{
    if opened {
        is_owner(byte, n, owner)
    } else {
        owner == NO_TASK
    }
}

fn is_owner(task: u8, n: usize, owner: u32) -> bool
    ensures { result ≡ (ltb task n && eqb task owner) }
{
    usize::from(task) < n && u32::from(task) == owner
}

// A fault or a difference is found: nothing else moves.
fn found_in(reading: Reading, found: Finding) -> Reading
    ensures { result ≡ stopped_at reading found }
{
    Reading { found, ..reading }
}

// A fault at this byte.
fn stop(reading: Reading, fault: Fault) -> Reading
    requires { reading.bytes ≤ log_limit }
    ensures { result ≡ stopped_at reading (Finding.Fault (number_of fault) reading.bytes) }
{
    found_in(
        reading,
        Finding::Fault {
            number: u32::from(fault),
            place: reading.bytes as u32,
        },
    )
}

// A byte that makes no slot's record whole is read.
fn pass(reading: Reading, opened: bool, done: bool, found: Finding) -> Reading
    requires { reading.bytes ≤ log_limit }
    ensures { result ≡ passed_on reading opened done found }
{
    Reading {
        opened,
        done,
        bytes: reading.bytes + 1,
        found,
        ..reading
    }
}

fn read_other(reading: Reading, byte: u8) -> Reading
    requires { reading.bytes ≤ log_limit }
    ensures { result ≡ other_read reading byte reading.found }
{
    match reading.found {
        Finding::Nothing => read_kind(reading, byte),
        Finding::Good => stop(reading, behind_end(reading.bytes)),
        Finding::Differs(_) | Finding::Fault { .. } => reading,
    }
}

// Past the limit it is 44, whatever the byte is.
fn behind_end(bytes: u64) -> Fault
    ensures { number_of result ≡ cond (eqb bytes log_limit) 44 42 }
{
    if bytes == LOG_LIMIT {
        Fault::LogTooLong
    } else {
        Fault::LogAfterEnd
    }
}

fn read_kind(reading: Reading, kind: u8) -> Reading
    requires { reading.bytes ≤ log_limit }
    ensures { result ≡ kind_heard reading kind }
{
    if reading.bytes == LOG_LIMIT {
        return stop(reading, Fault::LogTooLong);
    }
    // By tests: a match took 1.16 times as long over a log of one task.
    if kind == Kind::Task as u8 {
        return pass(reading, true, reading.done, Finding::Nothing);
    }
    if kind == Kind::Done as u8 {
        return read_done(reading);
    }
    if kind == Kind::End as u8 {
        return pass(reading, false, reading.done, Finding::Good);
    }
    stop(reading, Fault::LogUnknownKind)
}

// A done report is about the slot just before: one, and not a second.
fn read_done(reading: Reading) -> Reading
    requires { reading.bytes ≤ log_limit }
    ensures { result ≡ done_heard reading }
{
    if reading.slots == 0 || reading.done {
        stop(reading, Fault::LogBadDone)
    } else {
        pass(reading, false, true, Finding::Nothing)
    }
}
