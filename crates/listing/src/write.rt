// A line of a listing.
ghost use Rattle.std.specs.Prelude.{◌≡◌, Ok, ℕ, ◌+◌, ◌<◌, ◌≤◌, length};
ghost use Rattle.listing.specs.Cursors.{Puts};
ghost use Rattle.listing.specs.Listing.{place_letter, listed_letter, refusal, answer_text, text, words_of, answer_room, room_of, ListedAs, WritesAs};

use crate::cursor::Cursor;
use crate::{Listed, ListedPlace, Refusal, ShortBuffer};
use controller::Raised;
use lines::LineSet;
use model::{Answer, Kernel, Place};

// The letter of a place in a listing. No From, since both types are other crates'.
fn place_letter(place: Place) -> u8
    ensures { result ≡ place_letter place }
{
    match place {
        Place::Hardware => b'c',
        Place::Kernel(Kernel::Head) => b'h',
        Place::Kernel(Kernel::Root) => b'r',
    }
}

// A count and a set.
fn put_arrived(to: &mut Cursor<'_>, count: u8, set: LineSet)
    requires { to.old.at + answer_room (Answer.Arrived count set) ≤ length to.old.out.now }
    ensures within { to.new.at < to.old.at + answer_room (Answer.Arrived count set) }
    ensures puts { Puts to.old (answer_text (Answer.Arrived count set)) to.new }
{
    to.decimal(count);
    to.byte(b' ');
    to.hexadecimal(set.bits);
}

// The number of a refusal, and the letter of its place.
fn put_refusal(to: &mut Cursor<'_>, number: u8, letter: u8)
    requires { to.old.at + 20 ≤ length to.old.out.now }
    ensures within { to.new.at < to.old.at + 20 }
    ensures puts { Puts to.old (refusal number letter) to.new }
{
    to.text(b"! ");
    to.decimal(number);
    to.byte(b' ');
    to.byte(letter);
}

// The letter of where a refusal is listed to be.
fn listed_letter(place: ListedPlace) -> u8
    ensures { result ≡ listed_letter place }
{
    match place {
        ListedPlace::Machine(place) => place_letter(place),
        ListedPlace::Text => b't',
    }
}

fn put_answer(to: &mut Cursor<'_>, a: Answer)
    requires { to.old.at + answer_room a ≤ length to.old.out.now }
    ensures within { to.new.at < to.old.at + answer_room a }
    ensures puts { Puts to.old (answer_text a) to.new }
{
    match a {
        Answer::Raised(Raised::New) => to.text(b"new"),
        Answer::Raised(Raised::Merged) => to.text(b"merged"),
        Answer::Masked => to.text(b"ok"),
        Answer::Arrived { count, set } => put_arrived(to, count, set),
        Answer::Delivered(Some(line)) => to.decimal(line),
        Answer::Delivered(None) => to.text(b"none"),
        Answer::Held => to.text(b"held"),
        Answer::Busy => to.text(b"busy"),
        Answer::Ended(line) => to.decimal(line),
        Answer::WasStalled(true) => to.text(b"1"),
        Answer::WasStalled(false) => to.text(b"0"),
        Answer::WasAtLevel(code) => to.decimal(code),
        Answer::Told(set) => to.hexadecimal(set.bits),
    }
}

fn put_listed(to: &mut Cursor<'_>, listed: Listed)
    requires { to.old.at + room_of (Ok listed) ≤ length to.old.out.now }
    ensures within { to.new.at < to.old.at + room_of (Ok listed) }
    ensures puts { Puts to.old (text listed) to.new }
{
    match listed {
        Listed::Accepted => to.text(b"ok"),
        Listed::Answered(a) => put_answer(to, a),
        Listed::Restored(code) => to.decimal(code),
    }
}

fn put_words(to: &mut Cursor<'_>, line: Result<Listed, Refusal>)
    requires { to.old.at + room_of line ≤ length to.old.out.now }
    ensures within { to.new.at < to.old.at + room_of line }
    ensures puts { Puts to.old (words_of line) to.new }
{
    match line {
        Ok(listed) => put_listed(to, listed),
        Err(refusal) => put_refusal(to, refusal.number, listed_letter(refusal.place)),
    }
}

// How many bytes a buffer must have for the line.
fn needed(line: Result<Listed, Refusal>) -> usize
    ensures { result ≡ room_of line }
{
    match line {
        Ok(Listed::Answered(Answer::Arrived { count, .. })) if count > 99 => 21,
        _ => 20,
    }
}

// The line with its refusal as it is listed.
fn as_listed<F: Into<Refusal>>(line: Result<Listed, F>) -> Result<Listed, Refusal>
    ensures { ListedAs F.Into.converts line result }
{
    match line {
        Ok(listed) => Ok(listed),
        Err(fault) => Err(fault.into()),
    }
}

// One line at the start of the buffer, with its line feed; the answer is how many bytes it has. A refusal is a trace's own, or
// any number at any place.
pub fn write_line<F: Into<Refusal>>(
    out: &mut [u8],
    line: Result<Listed, F>,
) -> Result<usize, ShortBuffer>
    ensures { WritesAs F.Into.converts line out.old result out.new }
{
    let line = as_listed(line);
    if out.len() < needed(line) {
        return Err(ShortBuffer);
    }
    let mut cursor = Cursor::over(out);
    put_words(&mut cursor, line);
    cursor.byte(b'\n');
    Ok(cursor.written())
}
