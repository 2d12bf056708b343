// Traces replayed whole, and in blocks.
#![tactic(auto)]

#[cfg(test)]
mod tests {
    use levels::{BsdLevel, Class};
    use playback::{Playback, Stream, replay};
    use std::alloc::{AllocError, Global};
    use std::test::Fail;
    use trace::Saved;

    // Whether the trace lists as the text.
    fn lists(heap: Global, trace: &[u8], text: &[u8]) -> Result<bool, AllocError> {
        let listing = replay(heap, trace)?;
        Ok(listing.as_slice() == text)
    }

    #[test]
    fn the_head_goes_first(rt: HostRuntime) -> Result<(), Fail> {
        assert!(rt;
            lists(
                rt.alloc(),
                b"a 0 7\nb\ni 0\np 9\ni 8\nn r\nn h\nn r\nd h\nn r\np 1\nd h\n",
                b"ok\nok\nnew\n1 1\nnew\nbusy\n0\nbusy\n0\n0\n1 100\n! 3 h\n",
            )?
        );
        Ok(())
    }

    #[test]
    fn each_line_gives_one_line(rt: HostRuntime) -> Result<(), Fail> {
        let heap = rt.alloc();
        assert!(rt; lists(heap, b"", b"")?, "empty input");
        assert!(rt; lists(heap, b"\n", b"! 8 t\n")?, "an empty line");
        assert!(rt;
            lists(heap, b"\n\nb", b"! 8 t\n! 8 t\nok\n")?,
            "no final line feed"
        );
        assert!(rt;
            lists(heap, b"b\n", b"ok\n")?,
            "no line after the last line feed"
        );
        assert!(rt;
            lists(heap, b"b\r\nb\n", b"! 8 t\nok\n")?,
            "a carriage return"
        );
        assert!(rt;
            lists(heap, b"\0\n\xff\xfe\nb\n", b"! 8 t\n! 8 t\nok\n")?,
            "any byte"
        );
        Ok(())
    }

    #[test]
    fn long_lines_are_refused_once(rt: HostRuntime) -> Result<(), Fail> {
        let heap = rt.alloc();
        assert!(rt; lists(heap, &[b'b'; 80], b"! 8 t\n")?);
        assert!(rt; lists(heap, &[b'b'; 81], b"! 8 t\n")?);
        assert!(rt; lists(heap, &[b'b'; 1000], b"! 8 t\n")?);
        Ok(())
    }

    #[test]
    fn forms_come_before_ranges(rt: HostRuntime) -> Result<(), Fail> {
        let heap = rt.alloc();
        assert!(rt;
            lists(
                heap,
                b"i 0\na 256 x\na 256 7\na 3 8\na 2 9\na 2 7\na 003 1\na 0003 1\n",
                b"! 8 t\n! 8 t\n! 9 t\n! 9 t\n! 9 t\n! 1 c\nok\n! 8 t\n",
            )?,
            "before the start"
        );
        assert!(rt;
            lists(
                heap,
                b"b\nb\na 0 7\ni 256\ni 16\ni 2\ni  1\ni 1 \nm FFFB\nm 00000000000000000\nm 0000000000000008\nm 4\n",
                b"ok\n! 8 t\n! 8 t\n! 9 t\n! 1 c\n! 1 c\n! 8 t\n! 8 t\n! 8 t\n! 8 t\nok\n! 2 c\n",
            )?,
            "after the start"
        );
        assert!(rt;
            lists(
                heap,
                b"b\np 64\np 65\np 256\np 0\nn c\nk h ffffffffffffffff\nk r 10000000000000000\n",
                b"ok\n0 0\n! 9 c\n! 9 t\n0 0\n! 8 t\nok\n! 8 t\n",
            )?,
            "pumps and masks"
        );
        Ok(())
    }

    #[test]
    fn held_goes_before_busy(rt: HostRuntime) -> Result<(), Fail> {
        let heap = rt.alloc();
        assert!(rt;
            lists(
                heap,
                b"a 0 7\nb\ni 0\np 64\nn h\nn r\ns h\nn r\ns h\nu h\nn r\nd h\nv h 4\nn r\nx h\nn r\nd r\nd r\n",
                b"ok\nok\nnew\n1 1\n0\nbusy\n0\nheld\n1\n1\nbusy\n0\n0\nheld\n0\n0\n0\n! 3 r\n",
            )?
        );
        Ok(())
    }

    #[test]
    fn a_stack_has_sixteen_places(rt: HostRuntime) -> Result<(), Fail> {
        let heap = rt.alloc();
        assert!(rt;
            lists(
                heap,
                b"b\nx h\nx r\nv h 5\nv r 8\nv r 999\nv r 1\nv r 2\nv r 3\nv r 4\nv r 5\nv r 6\nv r 7\nv r 0\nv r 1\nv r 2\nv r 3\nv r 4\nv r 5\nv r 6\nv r 7\nv r 0\nv r 1\nv r 8\nx r\nx r\nv h 1\nx h\nx h\n",
                b"ok\n! 7 h\n! 7 r\n! 4 h\n! 4 r\n! 9 t\n0\n1\n2\n3\n4\n5\n6\n7\n0\n1\n2\n3\n4\n5\n6\n7\n! 6 r\n! 4 r\n7\n6\n0\n0\n! 7 h\n",
            )?
        );
        Ok(())
    }

    // The listing of a trace that comes in two blocks.
    fn in_blocks(heap: Global, first: &[u8], second: &[u8]) -> Result<Vec<u8>, AllocError> {
        let mut head_places = [Class(0); 16];
        let mut root_places = [BsdLevel::None; 16];
        let mut saved = Saved::over(&mut head_places, &mut root_places);
        let mut listing = Vec::new(heap);
        let stream = Stream::new(heap).feed(&mut saved, first, &mut listing)?;
        let stream = stream.feed(&mut saved, second, &mut listing)?;
        let _left = stream.finish(&mut saved, &mut listing)?;
        Ok(listing)
    }

    #[test]
    fn a_trace_is_cut_anywhere(rt: HostRuntime) -> Result<(), Fail> {
        let heap = rt.alloc();
        assert_eq!(rt;
            in_blocks(heap, b"b\ni ", b"3\np 1")?.as_slice(),
            b"ok\nnew\n1 8\n".as_slice()
        );
        assert_eq!(rt;
            in_blocks(heap, b"b", b"\ni 3\n")?.as_slice(),
            b"ok\nnew\n".as_slice()
        );
        assert_eq!(rt;
            in_blocks(heap, b"b\n", b"i 3\n")?.as_slice(),
            b"ok\nnew\n".as_slice()
        );
        assert_eq!(rt;
            in_blocks(heap, &[b'b'; 81], &[b'b'; 100])?.as_slice(),
            b"! 8 t\n".as_slice()
        );
        assert_eq!(rt;
            in_blocks(heap, &[b' '; 200], b"\nb\n")?.as_slice(),
            b"! 8 t\nok\n".as_slice()
        );
        Ok(())
    }

    #[test]
    fn a_short_buffer_changes_nothing(rt: HostRuntime) {
        let mut places = [Class(0); 1];
        let mut root_places = [BsdLevel::None; 1];
        let mut saved = Saved::over(&mut places, &mut root_places);
        let mut short = [b'#'; 19];
        let stepped = Playback::new().step(&mut saved, b"b", &mut short);
        assert!(rt; stepped.written.is_err());
        assert_eq!(rt; short[0], b'#');
        let mut enough = [b'#'; 20];
        let stepped = stepped.playback.step(&mut saved, b"b", &mut enough);
        assert_eq!(rt; stepped.written, Ok(3));
        assert_eq!(rt; &enough[0..4], b"ok\n#".as_slice());
        let stepped = stepped.playback.step(&mut saved, b"b", &mut enough);
        assert_eq!(rt; stepped.written, Ok(6));
        assert_eq!(rt; &enough[0..6], b"! 8 t\n".as_slice());
    }
}
