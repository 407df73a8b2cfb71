// The parts of a line.
use slots::Numbers;
use values::{Measure, Refusal, TASK_LIMIT};

const STDOUT_FILENO: i32 = 1;

pub fn words(s: &[u8]) {
    io::write_all(STDOUT_FILENO, s);
}

pub fn number(n: u64) {
    io::print_decimal(STDOUT_FILENO, n);
}

pub fn small(n: u32) {
    number(u64::from(n));
}

pub fn about(call: &[u8], vector: &[u8]) {
    words(call);
    words(b" ");
    words(vector);
    words(b": ");
}

pub fn refusal(why: Refusal) {
    words(b"refused ");
    small(why.number);
    words(b" at ");
    small(why.place);
}

pub fn measure(m: Measure) {
    words(b"H ");
    number(m.round);
    words(b", load ");
    number(m.load);
    words(b"/");
    number(m.round);
    words(b", horizon ");
    number(m.horizon);
}

// Of a number for each task the first three and the last: what follows a table of two tasks is seen.
pub fn numbers(x: Numbers) {
    small(x[0]);
    words(b" ");
    small(x[1]);
    words(b" ");
    small(x[2]);
    words(b" .. ");
    small(x[31]);
}
