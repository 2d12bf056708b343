// Lines of a listing.
use crate::{Listed, ListedPlace, Refusal, ShortBuffer, TraceFault, write_line};
use controller::{ControllerFault, Raised};
use level_stack::StackFault;
use lines::LineSet;
use model::{Answer, Fault, Kernel, MachineFault, Place};
use trace_lines::TextFault;

// Whether the line lists as the text, and the bytes past it stay.
fn lists<F: Into<Refusal>>(line: Result<Listed, F>, text: &[u8]) -> bool {
    let mut out = [b'#'; 24];
    let Ok(n) = write_line(&mut out, line) else {
        return false;
    };
    n == text.len() && n < 24 && &out[0..n] == text && out[n] == b'#' && out[23] == b'#'
}

// A line that was obeyed.
fn obeyed(listed: Listed) -> Result<Listed, TraceFault> {
    Ok(listed)
}

fn answer_lists(answer: Answer, text: &[u8]) -> bool {
    lists(obeyed(Listed::Answered(answer)), text)
}

#[test]
fn answers_are_listed(rt: HostRuntime) {
    assert!(rt; lists(obeyed(Listed::Accepted), b"ok\n"));
    assert!(rt; answer_lists(Answer::Raised(Raised::New), b"new\n"));
    assert!(rt; answer_lists(Answer::Raised(Raised::Merged), b"merged\n"));
    assert!(rt; answer_lists(Answer::Masked, b"ok\n"));
    assert!(rt; answer_lists(Answer::Delivered(Some(0)), b"0\n"));
    assert!(rt; answer_lists(Answer::Delivered(Some(63)), b"63\n"));
    assert!(rt; answer_lists(Answer::Delivered(None), b"none\n"));
    assert!(rt; answer_lists(Answer::Held, b"held\n"));
    assert!(rt; answer_lists(Answer::Busy, b"busy\n"));
    assert!(rt; answer_lists(Answer::Ended(8), b"8\n"));
    assert!(rt; answer_lists(Answer::WasStalled(false), b"0\n"));
    assert!(rt; answer_lists(Answer::WasStalled(true), b"1\n"));
    assert!(rt; answer_lists(Answer::WasAtLevel(7), b"7\n"));
    assert!(rt; lists(obeyed(Listed::Restored(10)), b"10\n"));
}

#[test]
fn arrivals_are_a_count_and_a_set(rt: HostRuntime) {
    assert!(rt;
        answer_lists(
            Answer::Arrived {
                count: 0,
                set: LineSet::EMPTY,
            },
            b"0 0\n",
        )
    );
    assert!(rt;
        answer_lists(
            Answer::Arrived {
                count: 15,
                set: LineSet::new(0xfffb),
            },
            b"15 fffb\n",
        )
    );
    assert!(rt;
        answer_lists(
            Answer::Arrived {
                count: 64,
                set: LineSet::ALL,
            },
            b"64 ffffffffffffffff\n",
        )
    );
}

#[test]
fn refusals_have_a_number_and_a_place(rt: HostRuntime) {
    assert!(rt; lists(Err(TraceFault::Text(TextFault::Form)), b"! 8 t\n",));
    assert!(rt;
        lists(
            Err(TraceFault::Saved {
                fault: StackFault::Full,
                kernel: Kernel::Root,
            }),
            b"! 6 r\n",
        )
    );
    assert!(rt;
        lists(
            Err(TraceFault::Machine(MachineFault {
                fault: Fault::Controller(ControllerFault::NothingInService),
                place: Place::Kernel(Kernel::Head),
            })),
            b"! 3 h\n",
        )
    );
    assert!(rt;
        lists(
            Err(TraceFault::Machine(MachineFault {
                fault: Fault::OverLimit,
                place: Place::Hardware,
            })),
            b"! 9 c\n",
        )
    );
}

// Whether a refusal of that number and place lists as the text.
fn refusal_lists(number: u8, place: ListedPlace, text: &[u8]) -> bool {
    lists(Err(Refusal { number, place }), text)
}

#[test]
fn any_number_is_listed_at_any_place(rt: HostRuntime) {
    let at_head = ListedPlace::Machine(Place::Kernel(Kernel::Head));
    let at_root = ListedPlace::Machine(Place::Kernel(Kernel::Root));
    let at_hardware = ListedPlace::Machine(Place::Hardware);
    assert!(rt; refusal_lists(8, ListedPlace::Text, b"! 8 t\n"));
    assert!(rt; refusal_lists(6, at_root, b"! 6 r\n"));
    assert!(rt; refusal_lists(3, at_head, b"! 3 h\n"));
    assert!(rt; refusal_lists(9, at_hardware, b"! 9 c\n"));
    assert!(rt; refusal_lists(10, ListedPlace::Text, b"! 10 t\n"));
    assert!(rt; refusal_lists(255, at_hardware, b"! 255 c\n"));
    assert!(rt; refusal_lists(0, at_root, b"! 0 r\n"));
}

#[test]
fn a_short_buffer_is_refused_and_stays(rt: HostRuntime) {
    let mut short = [b'#'; 19];
    let refused = write_line(&mut short, obeyed(Listed::Accepted));
    assert_eq!(rt; refused, Err(ShortBuffer));
    assert_eq!(rt; short[0], b'#');
    assert_eq!(rt; short[18], b'#');
    let mut enough = [b'#'; 20];
    assert_eq!(rt; write_line(&mut enough, obeyed(Listed::Accepted)), Ok(3));
    assert_eq!(rt; ShortBuffer.number(), 10);
}
