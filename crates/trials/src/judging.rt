// Tables whose H is near its limit.
use crate::tables::task;
use crate::{say, tables};
use values::{Judgement, Table};

pub fn rounds() {
    judge(b"periods 31622 and 31623", tables::periods(31_622, 31_623));
    judge(b"periods 31623 and 31624", tables::periods(31_623, 31_624));
    judge(
        b"periods 7777, 9901 and 12987",
        tables::three(
            task(0, 1, 1, 7_777),
            task(0, 1, 1, 9_901),
            task(0, 1, 1, 12_987),
        ),
    );
    judge(b"periods 4093, 8779 and 27830", tables::too_long());
    judge(
        b"most tasks, periods from 59000 on",
        tables::most(59_000, 1),
    );
}

fn judge(vector: &[u8], t: Table) {
    say::about(b"judge", vector);
    match table::judge(t) {
        Err(why) => say::refusal(why),
        Ok(m) => say::measure(m),
    }
    say::words(b"\n");
}
