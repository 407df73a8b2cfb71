// A search by halving, between a number that passes a test and a larger one that does not.
#![tactic(auto)]

ghost use Rattle.std.specs.Prelude.{◌≡◌, ◌⊎◌, true, false, ◌+◌, ◌≤◌, ◌<◌};

// A number from `passes` on, before `fails`, that passes where the next one does not. Neither end is tried: who asks knows of them.
pub fn last_passing<F: Fn(u32) -> bool>(passes: u32, fails: u32, test: F) -> u32
    requires apart { passes < fails }
    requires callable { (x : _) → passes < x → x < fails → F.pre test x }
    ensures within { (passes ≤ result) × (result < fails) }
    ensures passed { (result ≡ passes) ⊎ F.post test result true }
    ensures failed { (result + 1 ≡ fails) ⊎ F.post test (result + 1) false }
{
    let mut low = passes;
    let mut high = fails;
    while high - low > 1 {
        let middle = low + (high - low) / 2;
        if test(middle) {
            low = middle;
        } else {
            high = middle;
        }
    }
    low
}
