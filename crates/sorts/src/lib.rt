// What the sort of a task says.
#![tactic(auto)]

ghost use Rattle.std.specs.Prelude.{◌≡◌};
ghost use Rattle.model.specs.Tasks.{is_button, offset};

use values::{Sort, Task};

// Of a button it is 0.
pub fn offset_of(k: Task) -> u32
    ensures { result ≡ offset k }
{
    match k.sort {
        Sort::Periodic(offset) => offset,
        Sort::Button => 0,
    }
}

pub fn is_button(k: Task) -> bool
    ensures { result ≡ is_button k }
{
    matches!(k.sort, Sort::Button)
}
