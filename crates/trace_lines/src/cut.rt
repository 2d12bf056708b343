// A text cut into lines.
ghost use Rattle.std.specs.Prelude.{◌≡◌, ℕ, length, MatchOption, ◌==◌};
ghost use Rattle.std.specs.List.{position};
ghost use Rattle.trace_lines.specs.Cut.{FirstLine, FirstWholeLine, NoWholeLine};

// Where the first line feed stands; it alone ends a line.
fn line_feed(text: &[u8]) -> Option<usize>
    ensures { result ≡ position (λ b. b == 10) text.now }
{
    text.iter().position(|b| *b == b'\n')
}

// The first line of a text, without its line feed, and what comes after it; none if the text is empty.
pub fn next_line(text: &[u8]) -> Option<(&[u8], &[u8])>
    ensures { MatchOption result (length text.now ≡ 0) (λ cut. FirstLine text.now cut.0.now cut.1.now) }
{
    if text.is_empty() {
        return None;
    }
    next_whole_line(text).or(Some((text, &[])))
}

// The first line of a text that a line feed ends, without its line feed, and what comes after it; none if there is no line feed.
pub fn next_whole_line(text: &[u8]) -> Option<(&[u8], &[u8])>
    ensures { MatchOption result (NoWholeLine text.now) (λ cut. FirstWholeLine text.now cut.0.now cut.1.now) }
{
    let n = line_feed(text)?;
    Some((&text[..n], &text[n + 1..]))
}
