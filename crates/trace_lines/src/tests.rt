// Lines as a trace may have them.
use crate::{Command, Setup, TextFault, next_line, next_whole_line, read_command, read_setup};
use lines::LineSet;
use model::Kernel;
use routes::Route;
use std::test::Fail;

// The number of the refusal, if the line was refused.
fn refusal<T: Drop>(read: Result<T, TextFault>) -> Option<u8> {
    read.err().map(|fault| fault.number())
}

// A line that sets the route with these flags.
fn routed(
    line: u8,
    head_handles: bool,
    head_passes: bool,
    root_handles: bool,
) -> Result<Setup, TextFault> {
    let route = Route {
        head_handles,
        head_passes,
        root_handles,
    };
    Ok(Setup::Route { line, route })
}

// The length of the line that was cut off, if there was one.
fn length(cut: Option<(&[u8], &[u8])>) -> Option<usize> {
    cut.map(|(line, _)| line.len())
}

#[test]
fn numbers_may_have_leading_zeros(rt: HostRuntime) {
    assert_eq!(rt; read_command(b"i 7"), Ok(Command::Raise(7)));
    assert_eq!(rt; read_command(b"i 007"), Ok(Command::Raise(7)));
    assert_eq!(rt; read_command(b"p 255"), Ok(Command::Pump(255)));
    assert_eq!(rt;
        read_command(b"v r 05"),
        Ok(Command::SetLevel(Kernel::Root, 5))
    );
    assert_eq!(rt; refusal(read_command(b"i 0007")), Some(8));
    assert_eq!(rt; refusal(read_command(b"i 256")), Some(9));
    assert_eq!(rt; refusal(read_command(b"v h 999")), Some(9));
    assert_eq!(rt; refusal(read_command(b"v e 999")), Some(8));
    assert_eq!(rt; refusal(read_command(b"i +1")), Some(8));
}

#[test]
fn sets_are_lower_case(rt: HostRuntime) {
    assert_eq!(rt;
        read_command(b"m fffb"),
        Ok(Command::MaskHardware(LineSet::new(0xfffb)))
    );
    assert_eq!(rt;
        read_command(b"k h 000000000000000a"),
        Ok(Command::Mask(Kernel::Head, LineSet::new(10)))
    );
    assert_eq!(rt;
        read_command(b"k r ffffffffffffffff"),
        Ok(Command::Mask(Kernel::Root, LineSet::ALL))
    );
    assert_eq!(rt; refusal(read_command(b"m FFFB")), Some(8));
    assert_eq!(rt; refusal(read_command(b"m 0x1")), Some(8));
    assert_eq!(rt; refusal(read_command(b"m 00000000000000000")), Some(8));
    assert_eq!(rt; refusal(read_command(b"m ")), Some(8));
}

#[test]
fn another_form_is_refused(rt: HostRuntime) {
    assert_eq!(rt; refusal(read_command(b"")), Some(8));
    assert_eq!(rt; refusal(read_command(b"n")), Some(8));
    assert_eq!(rt; refusal(read_command(b"n  h")), Some(8));
    assert_eq!(rt; refusal(read_command(b" n h")), Some(8));
    assert_eq!(rt; refusal(read_command(b"n h ")), Some(8));
    assert_eq!(rt; refusal(read_command(b"n h\r")), Some(8));
    assert_eq!(rt; refusal(read_command(b"n\th")), Some(8));
    assert_eq!(rt; refusal(read_command(b"n c")), Some(8));
    assert_eq!(rt; refusal(read_command(b"n hr")), Some(8));
    assert_eq!(rt; refusal(read_command(b"n \0")), Some(8));
    assert_eq!(rt; refusal(read_command(b"\xff \xfe")), Some(8));
    assert_eq!(rt; refusal(read_command(b"n r")), None);
}

#[test]
fn letters_belong_to_a_phase(rt: HostRuntime) {
    assert_eq!(rt; refusal(read_command(b"b")), Some(8));
    assert_eq!(rt; refusal(read_command(b"a 0 7")), Some(8));
    assert_eq!(rt; refusal(read_command(b"a 300 9")), Some(8));
    assert_eq!(rt; refusal(read_setup(b"b")), None);
    assert_eq!(rt; refusal(read_setup(b"b ")), Some(8));
    assert_eq!(rt; refusal(read_setup(b"i 999")), Some(8));
    assert_eq!(rt; refusal(read_setup(b"n h")), Some(8));
}

#[test]
fn routes_add_their_flags(rt: HostRuntime) {
    assert_eq!(rt; read_setup(b"a 0 1"), routed(0, true, false, false));
    assert_eq!(rt; read_setup(b"a 00 6"), routed(0, false, true, true));
    assert_eq!(rt; read_setup(b"a 255 7"), routed(255, true, true, true));
    assert_eq!(rt; refusal(read_setup(b"a 2 8")), Some(9));
    assert_eq!(rt; refusal(read_setup(b"a 256 0")), Some(9));
    assert_eq!(rt; refusal(read_setup(b"a 256 x")), Some(8));
    assert_eq!(rt; refusal(read_setup(b"a 0 07")), Some(8));
    assert_eq!(rt; refusal(read_setup(b"a 0")), Some(8));
}

#[test]
fn lines_of_80_bytes_and_more_have_no_form(rt: HostRuntime) {
    assert_eq!(rt; refusal(read_command(&[b'i'; 80])), Some(8));
    assert_eq!(rt; refusal(read_command(&[b'i'; 81])), Some(8));
    assert_eq!(rt; refusal(read_setup(&[b'b'; 81])), Some(8));
}

#[test]
fn a_text_is_cut_at_its_line_feeds(rt: HostRuntime) -> Result<(), Fail> {
    assert_eq!(rt; length(next_line(b"")), None);
    assert_eq!(rt; length(next_line(b"\n")), Some(0));
    assert_eq!(rt; length(next_line(b"b\r\n")), Some(2));
    assert_eq!(rt; length(next_line(b"i 0\ni 1")), Some(3));
    assert_eq!(rt; length(next_line(b"i 0")), Some(3));
    let Some((_, rest)) = next_line(b"i 0\n") else {
        return Err(Fail::new("no line"));
    };
    assert_eq!(rt; length(next_line(rest)), None);
    Ok(())
}

#[test]
fn a_whole_line_has_its_line_feed(rt: HostRuntime) {
    assert_eq!(rt; length(next_whole_line(b"")), None);
    assert_eq!(rt; length(next_whole_line(b"\n")), Some(0));
    assert_eq!(rt; length(next_whole_line(b"i 0\ni 1")), Some(3));
    assert_eq!(rt; length(next_whole_line(b"\r")), None);
    assert_eq!(rt; length(next_whole_line(b"i 0")), None);
}
