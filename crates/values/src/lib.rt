// The values that pass between the calls. What they mean stands in `model`.
#![tactic(auto)]

ghost use Rattle.std.specs.Prelude.{◌≡◌};
ghost use Rattle.values.specs.Numbers.{number_of, verdict_number};

// The limits of the code, each once: they are those of `model`, or the proofs fail.
pub const TASK_LIMIT: usize = 32;

pub const SLOT_LIMIT: u32 = 60_000;

pub const ROUND_LIMIT: u64 = 1_000_000_000_000;

pub const SHARE_LIMIT: u32 = 1_000_000;

pub const LONGEST_FILE: usize = 9 + TASK_LIMIT * 17 + 1;

pub const REPORT_BYTES: usize = 1024;

pub const ANSWER_BYTES: usize = 8 * 8 + 4 * (4 + TASK_LIMIT);

pub const STATE_BYTES: usize = 4 * (TASK_LIMIT + TASK_LIMIT + 4) + 8 * (TASK_LIMIT + 1);

pub const SLOT_COUNT_LIMIT: u64 = 0xffff_ffff_ffff_ffff;

pub const LOG_LIMIT: u64 = 0xffff_ffff;

pub const LOG_STATE_BYTES: usize = STATE_BYTES + 4 * 4 + 8 * 2;

// Why a call refuses, section 7.1 of the specification, and what is wrong with a log, 7.3: the numbers are those of `model`, or the
// proofs fail.
#[derive(Clone, Copy, PartialEq, Eq)]
pub enum Fault {
    NoTasks = 1,
    TooManyTasks = 2,
    BadPeriod = 3,
    BadDeadline = 4,
    BadCost = 5,
    BadOffset = 6,
    LongRound = 7,
    StrangeState = 8,
    FullState = 9,
    HasButton = 11,
    NoSuchTask = 12,
    FileCutShort = 20,
    FileUnknownKind = 21,
    FileNoBudget = 22,
    FileSecondBudget = 23,
    FileAfterEnd = 24,
    FileTooManyTasks = 25,
    FileNoEnd = 26,
    ZeroBudget = 27,
    ShortReport = 30,
    ShortBuffer = 31,
    LogUnknownKind = 40,
    LogBadDone = 41,
    LogAfterEnd = 42,
    LogNoEnd = 43,
    LogTooLong = 44,
    StateLength = 50,
    BrokenRows = 51,
    StrangeRow = 52,
    TextUnknownWord = 60,
    TextNotANumber = 61,
    TextLargeNumber = 62,
    TextWrongCount = 63,
    TextBudgetNotFirst = 64,
    TextSecondBudget = 65,
    TextTooManyTasks = 66,
}

impl From<Fault> for u32 {
    ghost from_gives = { λ fault number. number ≡ number_of fault };

    fn from(fault: Fault) -> u32 {
        fault as u32
    }
}

// How the jobs of a task come: from an offset on, every period, or as a button is pressed, with no offset at all.
#[derive(Clone, Copy)]
pub enum Sort {
    Periodic(u32),
    Button,
}

// A task: its sort, the slots of each job, the deadline after each release, and the period, which is a button's least spacing.
#[derive(Clone, Copy)]
pub struct Task {
    pub sort: Sort,
    pub cost: u32,
    pub deadline: u32,
    pub period: u32,
}

// The tasks below `count`. Any value may be handed to a public call; entries from `count` on are not read.
#[derive(Clone, Copy)]
pub struct Table {
    pub count: usize,
    pub tasks: [Task; TASK_LIMIT],
}

// A refusal: the number and place of section 7.1 of the specification.
#[derive(Clone, Copy)]
pub struct Refusal {
    pub number: u32,
    pub place: u32,
}

impl Refusal {
    pub fn new(fault: Fault, place: u32) -> Refusal
        ensures { result ≡ record { number = number_of fault; place = place } }
    {
        Refusal {
            number: u32::from(fault),
            place,
        }
    }
}

// What a well-formed table measures: H, the slots its jobs ask for in H slots, and its horizon.
#[derive(Clone, Copy)]
pub struct Measure {
    pub round: u64,
    pub load: u64,
    pub horizon: u64,
}

// Whether a table is well-formed: what it measures, or its refusal.
pub type Judgement = Result<Measure, Refusal>;

// What the exact test decides.
#[derive(Clone, Copy)]
pub enum Verdict {
    Passes,
    Overload,
    Late { from: u64, to: u64, demand: u64 },
    Undecided,
}

impl Verdict {
    // Its number in the answer of a check, section 9 of the specification.
    pub fn number(self) -> u32
        ensures { result ≡ verdict_number self }
    {
        match self {
            Verdict::Overload => 1,
            Verdict::Undecided => 2,
            Verdict::Late { .. } => 3,
            Verdict::Passes => 4,
        }
    }
}

// The answer of the exact test: a verdict or a refusal.
pub type Outcome = Result<Verdict, Refusal>;

// How far a number of a table may go: why the table does not pass with it at its easiest, or the last number with which it does.
#[derive(Clone, Copy)]
pub enum Limit {
    Overload,
    Late,
    Undecided,
    At(u32),
}

// The largest cost of a task with which its table passes, or a refusal.
pub type LargestCost = Result<Limit, Refusal>;

// What is changed in a table: the cost or the deadline of the task of this number, or every cost by one share of it.
#[derive(Clone, Copy)]
pub enum Change {
    Cost(u32),
    Deadline(u32),
    Share,
}

// What would fit, or a refusal.
pub type Fit = Result<Limit, Refusal>;

// All that the exact test says: the first idle instant after 0 stands last. What the outcome leaves nothing to say of is 0.
#[derive(Clone, Copy)]
pub struct Answer {
    pub outcome: Outcome,
    pub measure: Measure,
    pub settled: u64,
    pub worst: [u32; TASK_LIMIT],
    pub idle: u64,
}

// The whole answer of a check as numbers, as a C program reads it: `quick` is 1 for pass, and `verdict` the number by which the
// verdict is said.
#[derive(Clone, Copy)]
pub struct AnswerNumbers {
    pub round: u64,
    pub load: u64,
    pub horizon: u64,
    pub settled: u64,
    pub idle: u64,
    pub from: u64,
    pub to: u64,
    pub demand: u64,
    pub tasks: u32,
    pub quick: u32,
    pub verdict: u32,
    pub worst: [u32; TASK_LIMIT],
}

// What the quick test says: pass, or no answer.
#[derive(Clone, Copy)]
pub enum Quick {
    Pass,
    NoAnswer,
}

pub type QuickAnswer = Result<Quick, Refusal>;

// What the distance test says: overload, pass, or no answer.
#[derive(Clone, Copy)]
pub enum ByDistance {
    Overload,
    Pass,
    NoAnswer,
}

pub type DistanceAnswer = Result<ByDistance, Refusal>;

// Whether one table is an easing of another: the first of its tasks that is none, or the tasks of the other that are kept, as a
// set of bits.
#[derive(Clone, Copy)]
pub enum Easing {
    Unmatched(u32),
    Kept(u32),
}

// Whether a buffer, a file, or a table to start with, is taken.
pub type Admission = Result<(), Refusal>;

// What a table file holds. Of a refused file the budget is 0 and the table empty.
#[derive(Clone, Copy)]
pub struct Contents {
    pub admission: Admission,
    pub budget: u64,
    pub table: Table,
}

// What a writer into a lent buffer says: how many bytes it wrote at the buffer's front, or a refusal.
pub type Writing = Result<usize, Refusal>;

// What a line of a plain text says that has no fault: nothing, a budget or a task.
#[derive(Clone, Copy)]
pub enum Entry {
    Nothing,
    Budget(u64),
    OneTask(Task),
}

// A dispatcher's state: for each task its wait, the slots until its next release, and the slots left to its open job; which task ran
// last, or `TASK_LIMIT`; the slots given to each task, and the empty ones.
#[derive(Clone, Copy)]
pub struct State {
    pub wait: [u32; TASK_LIMIT],
    pub left: [u32; TASK_LIMIT],
    pub last: u32,
    pub given: [u64; TASK_LIMIT],
    pub empty: u64,
}

// What a step says: the task that owns the slot; the tasks closed late as a set of bits, how many they are, and the lowest of
// them. No task is `TASK_LIMIT`.
#[derive(Clone, Copy)]
pub struct Turn {
    pub owner: u32,
    pub late: u32,
    pub closed: u32,
    pub lowest: u32,
}

// The answer of a step: what it says, or a refusal.
pub type SlotAnswer = Result<Turn, Refusal>;

// What is found of a camera's log: nothing yet; its end, with nothing wrong before it; the first slot that differs from the
// dispatcher's; a fault, by its number (section 7.3 of the specification) and the place of its byte.
#[derive(Clone, Copy)]
pub enum Finding {
    Nothing,
    Good,
    Differs(u32),
    Fault { number: u32, place: u32 },
}
