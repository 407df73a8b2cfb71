// What every exported call shares: a refusal as one number, and a file's form read for a buffer of one length.
#![tactic(auto)]

ghost use Rattle.std.specs.Prelude.{◌≡◌, ◌+◌, ◌*◌, min};
ghost use Rattle.values.specs.Numbers.{number_of};
ghost use Rattle.model.specs.Report.{refusal_number};
ghost use Rattle.numbers.specs.Form.{told_number, form_for};

use values::{Contents, Fault, Refusal};

const LARGEST_PLACE: u32 = 65535;

// What a call answers, or its refusal as a number.
pub fn told(answer: Result<u64, Refusal>) -> u64
    ensures { result ≡ told_number answer }
{
    match answer {
        Ok(number) => number,
        Err(why) => refusal_number(why),
    }
}

pub fn refusal_number(why: Refusal) -> u64
    ensures { result ≡ refusal_number why }
{
    65536 * u64::from(why.number) + u64::from(why.place)
}

// A place has two bytes: a longer length is told as the largest.
pub fn refusal_at(fault: Fault, place: usize) -> Refusal
    ensures { result ≡ record { number = number_of fault; place = min place 65535 } }
{
    Refusal::new(fault, place.min(LARGEST_PLACE as usize) as u32)
}

// No table has a task with the largest place as its number, so that it stands for every larger one.
pub fn tellable_task(task: u32) -> u32
    ensures { result ≡ min task 65535 }
{
    task.min(LARGEST_PLACE)
}

// The form of a file, for a buffer of these bytes: their number is looked at before the file.
pub fn form_for(file: &[u8], wanted: usize, bytes: usize) -> Contents
    ensures { result ≡ form_for wanted file.now bytes }
{
    if bytes != wanted {
        return tablefile::refused_file(refusal_at(Fault::StateLength, bytes));
    }
    tablefile::form_of(file)
}
