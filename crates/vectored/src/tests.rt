use crate::Vectored;
use controller::{Controller, ControllerFault};

#[test]
fn a_line_in_service_holds_off_its_class(rt: HostRuntime) {
    let mut controller = Vectored::new();
    let _ = controller.raise(17);
    assert_eq!(rt; controller.take(), Some(17));
    let _ = controller.raise(30);
    assert_eq!(rt; controller.take(), None);
    let _ = controller.raise(32);
    assert_eq!(rt; controller.take(), Some(32));
}

#[test]
fn vectors_from_32_on(rt: HostRuntime) {
    let controller = Vectored::new();
    assert_eq!(rt; controller.registers().vector(0), Ok(32));
    assert_eq!(rt; controller.registers().vector(63), Ok(95));
    assert_eq!(rt;
        controller.registers().vector(64),
        Err(ControllerFault::NoSuchLine)
    );
}
