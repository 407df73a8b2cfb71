// Texts and numbers, written byte for byte.
#![tactic(auto)]

ghost use Rattle.std.specs.Prelude.{◌≡◌, ◌++◌, ◌+◌, ◌<◌, ◌≤◌, drop};
ghost use Rattle.model.specs.Notation.{decimal};
ghost use Rattle.model.specs.Report.{line};
ghost use Rattle.words.specs.Out.{Fits, Puts};
ghost use Rattle.text.specs.Decimal.{number_bytes};

use words::Out;

pub fn put_pair(out: &mut Out<'_>, name: &[u8], first: u64, between: &[u8], second: u64)
    requires { Fits (line (name.now ++ decimal first ++ between.now ++ decimal second)) out.old }
    ensures { Puts (line (name.now ++ decimal first ++ between.now ++ decimal second)) out.old out.new }
{
    put_number(out, name, first);
    put_line(out, between, second);
}

pub fn put_line(out: &mut Out<'_>, name: &[u8], number: u64)
    requires { Fits (line (name.now ++ decimal number)) out.old }
    ensures { Puts (line (name.now ++ decimal number)) out.old out.new }
{
    put_number(out, name, number);
    out.put(b"\n");
}

pub fn put_number(out: &mut Out<'_>, name: &[u8], number: u64)
    requires { Fits (name.now ++ decimal number) out.old }
    ensures { Puts (name.now ++ decimal number) out.old out.new }
{
    out.put(name);
    put_decimal(out, number);
}

const DIGITS: usize = 20;

// The digits are made aside, the last one first, and put at once: put one by one, a text took 1.3 times as long.
fn put_decimal(out: &mut Out<'_>, number: u64)
    requires { Fits (decimal number) out.old }
    ensures { Puts (decimal number) out.old out.new }
{
    let mut digits = [0u8; DIGITS];
    let from = make_digits(&mut digits, number);
    out.put(&digits[from..]);
}

// The digits of a number at the end of a list, and where they begin.
fn make_digits(digits: &mut [u8; DIGITS], number: u64) -> usize
    ensures within { result ≤ number_bytes }
    ensures made { drop result digits.new ≡ decimal number }
{
    let mut at = DIGITS;
    let mut rest = number;
    while rest >= 10 {
        at -= 1;
        digits[at] = digit_byte(rest % 10);
        rest /= 10;
    }
    at -= 1;
    digits[at] = digit_byte(rest);
    at
}

fn digit_byte(digit: u64) -> u8
    requires { digit < 10 }
    ensures { result ≡ 48 + digit }
{
    b'0' + digit as u8
}
