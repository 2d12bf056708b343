use crate::PendingLog;
use controller::Controller;
use lines::LineSet;
use std::test::Fail;

// The upper byte while the lines come in rising order, by the byte that they are in.
const FILLING: [u8; 8] = [0x01, 0x03, 0x07, 0x0f, 0x1f, 0x3f, 0x7f, 0xff];

// The upper byte while they go in rising order, by how many bytes are empty.
const EMPTYING: [u8; 9] = [0xff, 0xfe, 0xfc, 0xf8, 0xf0, 0xe0, 0xc0, 0x80, 0x00];

#[test]
fn the_upper_byte_follows_every_byte(rt: HostRuntime) -> Result<(), Fail> {
    let mut log = PendingLog::new();
    assert_eq!(rt; log.registers().upper(), 0);
    for line in 0..64u8 {
        let _ = log.raise(line);
        assert_eq!(rt; log.registers().upper(), FILLING[line as usize / 8]);
    }
    for line in 0..64u8 {
        assert_eq!(rt; log.take(), Some(line));
        assert_eq!(rt; log.registers().upper(), EMPTYING[(line as usize + 1) / 8]);
        let _ = log.end();
    }
    assert_eq!(rt; log.take(), None);
    Ok(())
}

#[test]
fn the_smaller_line_goes_first(rt: HostRuntime) {
    let mut log = PendingLog::new();
    let _ = log.raise(40);
    let _ = log.raise(9);
    let _ = log.mask(LineSet::new(0x200));
    assert_eq!(rt; log.take(), Some(40));
    let _ = log.raise(41);
    assert_eq!(rt; log.take(), None);
    let _ = log.mask(LineSet::EMPTY);
    assert_eq!(rt; log.take(), Some(9));
    assert_eq!(rt; log.end(), Ok(9));
}
