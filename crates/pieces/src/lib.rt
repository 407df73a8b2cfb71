// The pieces of a text: how far it is to the next byte that passes a test, and whether a text has a line.
#![tactic(auto)]

ghost use Rattle.std.specs.Prelude.{◌≡◌, ℕ, Bool, ◌≤◌, length};
ghost use Rattle.model.specs.PlainText.{is_gap, lines_of};
ghost use Rattle.model.specs.ReportRead.{has_line};
ghost use Rattle.pieces.specs.Marks.{Computes, length_to};

pub fn is_gap(byte: u8) -> bool
    ensures { result ≡ is_gap byte }
{
    byte == b' ' || byte == b'\t'
}

// The bytes before the first that passes, or all of them.
pub fn find<F: Fn(u8) -> bool>(s: &[u8], passes: F) -> usize
    requires { F.IsAlwaysCallable passes }
    ensures value { (test : ℕ → Bool) → Computes (F.post passes) test → result ≡ length_to test s.now }
    ensures upper_bound { result ≤ length s.now }
{
    s.iter().position(|byte| passes(*byte)).unwrap_or(s.len())
}

pub fn has_line(text: &[u8], line: &[u8]) -> bool
    ensures { result ≡ has_line line.now (lines_of text.now) }
{
    let mut left = text;
    loop {
        let end = find(left, |byte| byte == b'\n');
        if &left[..end] == line {
            return true;
        }
        if end == left.len() {
            return false;
        }
        left = &left[end + 1..];
    }
}
