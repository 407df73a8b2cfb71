// The greatest common divisor of two numbers, by halving and subtracting. Its meaning is final; the way to it may change.
#![tactic(auto)]

ghost use Rattle.std.specs.Prelude.{◌≡◌, min, ◌<◌};
ghost use Rattle.counting.specs.Divisors.{IsGcd};
ghost use Rattle.divisor.specs.Halves.{Odd, twos, OddPart};

pub fn divisor(a: u64, b: u64) -> u64
    ensures { IsGcd a b result }
{
    if a == 0 {
        return b;
    }
    if b == 0 {
        return a;
    }
    odd_divisor(odd_part(a), odd_part(b)) << shared_twos(a, b)
}

// What is left of a number once it can be halved no more. One shift: halving bit by bit takes longer than dividing.
fn odd_part(n: u64) -> u64
    requires { 0 < n }
    ensures { OddPart n result (twos n) }
{
    n >> n.trailing_zeros()
}

// How often both numbers can be halved.
fn shared_twos(a: u64, b: u64) -> u32
    ensures { result ≡ min (twos a) (twos b) }
{
    a.trailing_zeros().min(b.trailing_zeros())
}

// The difference of two odd numbers is even, so the larger one falls to less than half of itself in each turn.
fn odd_divisor(a: u64, b: u64) -> u64
    requires odd { Odd a }
    requires odd_2 { Odd b }
    ensures { IsGcd a b result }
{
    let mut x = a;
    let mut y = b;
    while x != y {
        if x < y {
            y = odd_part(y - x);
        } else {
            x = odd_part(x - y);
        }
    }
    x
}
