// Reading a line: a letter and its arguments, each after one blank.
ghost use Rattle.std.specs.Prelude.{◌≡◌, ℕ, ◌+◌, ◌-◌, ◌<◌, ◌≤◌, Bool, true, false, length, if◌then◌else◌, Some, Ok, Err, nat_le, MatchResult};
ghost use Rattle.std.specs.Option.{ok_or};
ghost use Rattle.trace_lines.specs.Grammar.{route, setup_in_range, command_in_range, ReadsSetup, ReadsCommand};
ghost use Rattle.trace_lines.specs.Numerals.{numeral};
ghost use Rattle.trace_lines.specs.Forms.{ranged, said, kernel_named, kernel_of, kernel_and_rest, kernel_and, set_of, letter_form, command_form, route_form, setup_form};

use crate::numerals::read_numeral;
use crate::{Command, Setup, TextFault};
use lines::LineSet;
use model::Kernel;
use routes::Route;

// How many bytes a line has at most.
const LONGEST: usize = 80;

// A number of one to `most` digits.
fn number(most: usize, s: &[u8]) -> Result<u64, TextFault>
    requires { most ≤ 16 }
    ensures { result ≡ ok_or (numeral 10 most s.now) TextFault.Form }
{
    read_numeral(10, most, s).ok_or(TextFault::Form)
}

// A set of one to sixteen hexadecimal digits.
fn set(s: &[u8]) -> Result<LineSet, TextFault>
    ensures { result ≡ ok_or (set_of s.now) TextFault.Form }
{
    read_numeral(16, 16, s)
        .map(LineSet::new)
        .ok_or(TextFault::Form)
}

// A number of at most 255.
fn in_byte(n: u64) -> Result<u8, TextFault>
    ensures { result ≡ (if nat_le n 255 then Ok n else Err TextFault.Range) }
{
    u8::try_from(n).map_err(|_| TextFault::Range)
}

// A number of one to three digits, of at most 255.
fn byte(s: &[u8]) -> Result<u8, TextFault>
    ensures { result ≡ ranged (λ n. nat_le n 255) (numeral 10 3 s.now) }
{
    in_byte(number(3, s)?)
}

// The kernel that a letter names. No TryFrom, since both types are other crates'.
fn kernel_named(letter: u8) -> Result<Kernel, TextFault>
    ensures { result ≡ ok_or (kernel_named letter) TextFault.Form }
{
    match letter {
        b'h' => Ok(Kernel::Head),
        b'r' => Ok(Kernel::Root),
        _ => Err(TextFault::Form),
    }
}

// A kernel alone.
fn kernel(s: &[u8]) -> Result<Kernel, TextFault>
    ensures { result ≡ ok_or (kernel_of s.now) TextFault.Form }
{
    match s {
        [letter] => kernel_named(*letter),
        _ => Err(TextFault::Form),
    }
}

// A kernel, and what stands after it and a blank.
fn kernel_and_rest(s: &[u8]) -> Result<(Kernel, &[u8]), TextFault>
    ensures { MatchResult result (λ p. kernel_and_rest s.now ≡ Some (p.0, p.1.now)) (λ e. (kernel_and_rest s.now ≡ None) × (e ≡ TextFault.Form)) }
{
    match s {
        [letter, b' ', rest @ ..] => Ok((kernel_named(*letter)?, rest)),
        _ => Err(TextFault::Form),
    }
}

// k D S
fn mask(s: &[u8]) -> Result<Command, TextFault>
    ensures { result ≡ ranged command_in_range (kernel_and Command.Mask set_of s.now) }
{
    let (kernel, rest) = kernel_and_rest(s)?;
    Ok(Command::Mask(kernel, set(rest)?))
}

// v D C
fn set_level(s: &[u8]) -> Result<Command, TextFault>
    ensures { result ≡ ranged command_in_range (kernel_and Command.SetLevel (numeral 10 3) s.now) }
{
    let (kernel, rest) = kernel_and_rest(s)?;
    Ok(Command::SetLevel(kernel, byte(rest)?))
}

// The commands after the start, by their letters.
fn command(letter: u8, rest: &[u8]) -> Result<Command, TextFault>
    ensures { result ≡ ranged command_in_range (letter_form letter rest.now) }
{
    match letter {
        b'i' => Ok(Command::Raise(byte(rest)?)),
        b'm' => Ok(Command::MaskHardware(set(rest)?)),
        b'k' => mask(rest),
        b'p' => Ok(Command::Pump(byte(rest)?)),
        b'n' => Ok(Command::Next(kernel(rest)?)),
        b'd' => Ok(Command::Done(kernel(rest)?)),
        b's' => Ok(Command::Stall(kernel(rest)?)),
        b'u' => Ok(Command::Unstall(kernel(rest)?)),
        b'v' => set_level(rest),
        b'x' => Ok(Command::RestoreLevel(kernel(rest)?)),
        _ => Err(TextFault::Form),
    }
}

fn command_line(line: &[u8]) -> Result<Command, TextFault>
    ensures { result ≡ ranged command_in_range (command_form line.now) }
{
    match line {
        [letter, b' ', rest @ ..] => command(*letter, rest),
        _ => Err(TextFault::Form),
    }
}

// The route that two numbers say, each in its range. No TryFrom, which would be one of plain pairs of numbers.
fn route_of(line: u64, flags: u64) -> Result<Setup, TextFault>
    ensures { result ≡ said (ranged setup_in_range (Some (route line flags))) }
{
    let line = in_byte(line)?;
    if flags > 7 {
        return Err(TextFault::Range);
    }
    Ok(Setup::Route {
        line,
        route: Route {
            head_handles: flags % 2 == 1,
            head_passes: flags / 2 % 2 == 1,
            root_handles: flags / 4 % 2 == 1,
        },
    })
}

// a L F
fn route(s: &[u8]) -> Result<Setup, TextFault>
    ensures { result ≡ said (ranged setup_in_range (route_form s.now)) }
{
    let [line @ .., b' ', digit] = s else {
        return Err(TextFault::Form);
    };
    let n = number(3, line)?;
    let flags = number(1, &[*digit])?;
    route_of(n, flags)
}

fn setup_line(line: &[u8]) -> Result<Setup, TextFault>
    ensures { result ≡ said (ranged setup_in_range (setup_form line.now)) }
{
    match line {
        [b'a', b' ', rest @ ..] => route(rest),
        [b'b'] => Ok(Setup::Start),
        _ => Err(TextFault::Form),
    }
}

// A line that is too long has no form.
fn check_length(line: &[u8]) -> Result<(), TextFault>
    ensures { MatchResult result (λ _. length line.now ≤ 80) (λ e. (80 < length line.now) × (e ≡ TextFault.Form)) }
{
    if line.len() > LONGEST {
        return Err(TextFault::Form);
    }
    Ok(())
}

// What a line before the start says.
pub fn read_setup(line: &[u8]) -> Result<Setup, TextFault>
    ensures { ReadsSetup line.now result }
{
    check_length(line)?;
    setup_line(line)
}

// What a line after the start says.
pub fn read_command(line: &[u8]) -> Result<Command, TextFault>
    ensures { ReadsCommand line.now result }
{
    check_length(line)?;
    command_line(line)
}
