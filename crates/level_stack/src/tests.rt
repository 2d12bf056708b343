// Head classes and BSD levels on a stack.
use crate::{LevelStack, StackFault};
use levels::{BsdLevel, Class};

#[test]
fn levels_come_back_the_last_first(rt: HostRuntime) {
    let mut places = [Class(9); 3];
    let mut saved = LevelStack::over(&mut places);
    assert_eq!(rt; saved.pop(), Err(StackFault::Empty));
    assert_eq!(rt; saved.push(Class(1)), Ok(()));
    assert_eq!(rt; saved.push(Class(4)), Ok(()));
    assert_eq!(rt; saved.used(), 2);
    assert_eq!(rt; saved.pop(), Ok(Class(4)));
    assert_eq!(rt; saved.push(Class(2)), Ok(()));
    assert_eq!(rt; saved.pop(), Ok(Class(2)));
    assert_eq!(rt; saved.pop(), Ok(Class(1)));
    assert_eq!(rt; saved.pop(), Err(StackFault::Empty));
    assert_eq!(rt; saved.used(), 0);
}

#[test]
fn a_full_stack_refuses_and_stays(rt: HostRuntime) {
    let mut places = [BsdLevel::None; 2];
    let mut saved = LevelStack::over(&mut places);
    assert_eq!(rt; saved.push(BsdLevel::Net), Ok(()));
    assert!(rt; !saved.is_full());
    assert_eq!(rt; saved.push(BsdLevel::High), Ok(()));
    assert!(rt; saved.is_full());
    assert_eq!(rt; saved.push(BsdLevel::Bio), Err(StackFault::Full));
    assert_eq!(rt; saved.used(), 2);
    assert_eq!(rt; saved.levels(), [BsdLevel::Net, BsdLevel::High].as_slice());
    assert_eq!(rt; saved.pop(), Ok(BsdLevel::High));
    assert_eq!(rt; saved.last(), Some(BsdLevel::Net));
}

#[test]
fn a_stack_over_no_places_is_full_and_empty(rt: HostRuntime) {
    let mut places: [Class; 0] = [];
    let mut saved = LevelStack::over(&mut places);
    assert_eq!(rt; saved.push(Class(0)), Err(StackFault::Full));
    assert_eq!(rt; saved.pop(), Err(StackFault::Empty));
    assert_eq!(rt; StackFault::Full.number(), 6);
    assert_eq!(rt; StackFault::Empty.number(), 7);
}
