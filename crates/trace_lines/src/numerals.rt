// Numbers as a trace writes them.
ghost use Rattle.std.specs.Prelude.{◌≡◌, ℕ, ◌≤◌};
ghost use Rattle.trace_lines.specs.Numerals.{digit_of, numeral};

// The value of a digit of the base, '0' to '9' and 'a' to 'f'; `char::to_digit` takes capitals too.
fn digit(base: u64, b: u8) -> Option<u64>
    requires { base ≤ 16 }
    ensures { result ≡ digit_of base b }
{
    let d = match b {
        b'0'..=b'9' => (b - b'0') as u64,
        b'a'..=b'f' => (b - b'a') as u64 + 10,
        _ => return None,
    };
    (d < base).then_some(d)
}

// The number that one to `most` digits of a base write, if the text is that.
// A loop, as the number stays below 2 ^ 64 by how many digits came before, which a closure of `try_fold` cannot say.
pub(crate) fn read_numeral(base: u64, most: usize, s: &[u8]) -> Option<u64>
    requires base { base ≤ 16 }
    requires most { most ≤ 16 }
    ensures { result ≡ numeral base most s.now }
{
    if s.is_empty() || s.len() > most {
        return None;
    }
    let mut n: u64 = 0;
    for b in s {
        let d = digit(base, *b)?;
        n = n * base + d;
    }
    Some(n)
}
