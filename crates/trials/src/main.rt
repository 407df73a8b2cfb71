// Runs the specification's tables and states through judge, test and dispatcher, a line for each; `stdout` says what it demands of them.
#![tactic(auto)]

mod dispatching;
mod judging;
mod say;
mod tables;
mod testing;

fn main() {
    judging::rounds();
    dispatching::on_g();
    dispatching::on_f();
    testing::verdicts();
    testing::budgets();
}
