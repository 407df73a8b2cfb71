// The calls on table files alone: the quick test, the distance test, the largest cost of a task, the room of a table, and whether one is an easing of another.
#![tactic(auto)]

ghost use Rattle.std.specs.Prelude.{◌≡◌, ℕ, ◌+◌, ◌*◌, ◌<◌, ◌≤◌, Ok};
ghost use Rattle.values.specs.declared.Table.{Table};
ghost use Rattle.model.specs.Limits.{task_limit};
ghost use Rattle.model.specs.TableFile.{form_of, periodic_from};
ghost use Rattle.model.specs.Report.{file_number, quick_number, quick_exported, distance_number, distance_exported};
ghost use Rattle.model.specs.Easing.{easing_number, eased_number, eased_exported};
ghost use Rattle.model.specs.Largest.{cost_number, largest_exported};
ghost use Rattle.model.specs.Room.{room_exported};

use values::{
    ByDistance, DistanceAnswer, Easing, LargestCost, Limit, Quick, QuickAnswer, Refusal, Table,
};

const OLD_REFUSED: u64 = 2;

const NEW_REFUSED: u64 = 3;

fn quick_number(answer: QuickAnswer) -> u64
    ensures { result ≡ quick_number answer }
{
    match answer {
        Err(why) => numbers::refusal_number(why),
        Ok(Quick::Pass) => 1,
        Ok(Quick::NoAnswer) => 0,
    }
}

// Any file: its form is looked at before its table.
pub fn quick_file(file: &[u8]) -> u64
    ensures { result ≡ quick_exported file.now }
{
    on_file(file, |table, _| quick_number(quick::test(table)))
}

fn distance_number(answer: DistanceAnswer) -> u64
    ensures { result ≡ distance_number answer }
{
    match answer {
        Err(why) => numbers::refusal_number(why),
        Ok(ByDistance::Overload) => 2,
        Ok(ByDistance::Pass) => 1,
        Ok(ByDistance::NoAnswer) => 0,
    }
}

pub fn distance_file(file: &[u8]) -> u64
    ensures { result ≡ distance_exported file.now }
{
    on_file(file, |table, _| distance_number(distance::test(table)))
}

fn cost_number(answer: LargestCost) -> u64
    ensures { result ≡ cost_number answer }
{
    match answer {
        Err(why) => numbers::refusal_number(why),
        Ok(Limit::Overload) => 60_001,
        Ok(Limit::Undecided) => 60_002,
        Ok(Limit::Late) => 60_003,
        Ok(Limit::At(cost)) => u64::from(cost),
    }
}

// Any file and any task number: the file's form is looked at before its table, and that before the number.
pub fn largest_file(file: &[u8], task: u32) -> u64
    ensures { result ≡ largest_exported file.now task }
{
    on_file(file, |table, budget| {
        cost_number(largest::largest_cost(table, numbers::tellable_task(task), budget))
    })
}

// Any file and any task number, with buttons or without.
pub fn room_file(file: &[u8], task: u32) -> u64
    ensures { result ≡ room_exported file.now task }
{
    on_file(
        file,
        |table, _| room::room_number(table, numbers::tellable_task(task)),
    )
}

// What is told of a file's table and budget, or the refusal of its form.
#[inline(always)]
fn on_file<F: FnOnce(Table, u64) -> u64>(file: &[u8], tell: F) -> u64
    requires { F.IsAlwaysCallable tell }
    ensures { (go : Table → ℕ) → ((n : ℕ) → F.post tell (form_of file.now).table (form_of file.now).budget n → n ≡ go (form_of file.now).table)
        → result ≡ file_number file.now go }
{
    let form = tablefile::form_of(file);
    match form.admission {
        Ok(()) => tell(form.table, form.budget),
        Err(why) => numbers::refusal_number(why),
    }
}

// What is told of one of two files by its refusal: `which` is a remainder by 4.
fn refused_file(why: Refusal, which: u64) -> u64
    requires { which < 4 }
    ensures { result ≡ 4 * (65536 * why.number + why.place) + which }
{
    4 * numbers::refusal_number(why) + which
}

fn easing_number(told: Easing) -> u64
    ensures { result ≡ easing_number told }
{
    match told {
        Easing::Unmatched(task) => 4 * u64::from(task),
        Easing::Kept(tasks) => 4 * u64::from(tasks) + 1,
    }
}

fn eased_from(table: Table, new: &[u8]) -> u64
    requires { table.count ≤ task_limit }
    ensures { result ≡ eased_number table (periodic_from new.now).table (Ok tt) (periodic_from new.now).admission }
{
    let contents = tablefile::read_periodic(new);
    match contents.admission {
        Ok(()) => easing_number(easing::compare(table, contents.table)),
        Err(why) => refused_file(why, NEW_REFUSED),
    }
}

// Any two files: all that is wrong with the old one comes before what is wrong with the new one.
pub fn eased_files(old: &[u8], new: &[u8]) -> u64
    ensures { result ≡ eased_exported old.now new.now }
{
    let contents = tablefile::read_periodic(old);
    match contents.admission {
        Ok(()) => eased_from(contents.table, new),
        Err(why) => refused_file(why, OLD_REFUSED),
    }
}
