// A lent buffer that is written from its start on.
// No `Display` and `write!`: they say what is written only where no write failed, and a line that fits never fails.
ghost use Rattle.std.specs.Prelude.{◌≡◌, ℕ, ◌+◌, ◌<◌, ◌≤◌, [], ◌∷◌, length, nat_lt};
ghost use Rattle.listing.specs.Cursors.{Puts};
ghost use Rattle.listing.specs.Listing.{decimal, hexadecimal};
ghost use Rattle.listing.specs.Numbers.{digit_letter, written};

// The next byte goes to `at`. The caller lends the buffer, which is fixed: nothing here allocates. How much room there must be
// depends on the words, so each call asks for its own.
#[derive(Drop)]
pub(crate) struct Cursor<'a> {
    out: &'a mut [u8],
    at: usize,
}

// The byte of a digit below 16; `char::from_digit` gives an option of a char.
fn digit_letter(d: u64) -> u8
    requires { d < 16 }
    ensures { result ≡ digit_letter d }
{
    if d < 10 {
        b'0' + d as u8
    } else {
        b'a' + (d - 10) as u8
    }
}

// Whether a number has one digit.
fn is_digit(n: u64, base: u64) -> bool
    ensures { result ≡ nat_lt n base }
{
    n < base
}

impl<'a> Cursor<'a> {
    // At the start of the buffer.
    pub(crate) fn over(out: &'a mut [u8]) -> Self
        ensures start { result.at ≡ 0 }
        ensures bytes { result.out.now ≡ out.old }
        ensures lent { result.out.ghost_name ≡ out.entry.ghost_name }
    {
        Cursor { out, at: 0 }
    }

    // How many bytes are written.
    pub(crate) fn written(&self) -> usize
        ensures { result ≡ self.now.at }
    {
        self.at
    }

    pub(crate) fn text(&mut self, text: &[u8])
        requires { self.old.at + length text.now ≤ length self.old.out.now }
        ensures { Puts self.old text.now self.new }
    {
        let start = self.at;
        let end = start + text.len();
        let out = &mut *self.out;
        out[start..end].copy_from_slice(text);
        self.at = end;
    }

    pub(crate) fn byte(&mut self, b: u8)
        requires { self.old.at < length self.old.out.now }
        ensures { Puts self.old (b ∷ []) self.new }
    {
        self.out[self.at] = b;
        self.at += 1;
    }

    // A number in a base.
    fn number(&mut self, base: u64, n: u64)
        requires low { 2 ≤ base }
        requires high { base ≤ 16 }
        requires room { self.old.at + length (written base n) ≤ length self.old.out.now }
        ensures { Puts self.old (written base n) self.new }
    {
        if is_digit(n, base) {
            self.byte(digit_letter(n));
        } else {
            self.number(base, n / base);
            self.byte(digit_letter(n % base));
        }
    }

    // A number in base ten, of at most three digits.
    pub(crate) fn decimal(&mut self, n: u8)
        requires { self.old.at + 3 ≤ length self.old.out.now }
        ensures within { self.new.at ≤ self.old.at + 3 }
        ensures puts { Puts self.old (decimal n) self.new }
    {
        self.number(10, n as u64);
    }

    // A number in hexadecimal, of at most sixteen digits.
    pub(crate) fn hexadecimal(&mut self, n: u64)
        requires { self.old.at + 16 ≤ length self.old.out.now }
        ensures within { self.new.at ≤ self.old.at + 16 }
        ensures puts { Puts self.old (hexadecimal n) self.new }
    {
        self.number(16, n);
    }
}
