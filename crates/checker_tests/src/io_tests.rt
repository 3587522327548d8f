//! Bytes taken from sources and put into sinks.

use lp_io::{
    Failed, MemSink, MemSource, Sink, Source, StdSink, StdSource, TakeFault, put_all, take_all,
};
use std::test::Fail;

// What a take answers, without what it took.
fn answer<T>(taken: &Result<T, TakeFault>) -> &'static str {
    match taken {
        Ok(_) => "all",
        Err(TakeFault::ReadFault) => "fault",
        Err(TakeFault::InputLong) => "long",
        Err(TakeFault::NoMemory(_)) => "memory",
    }
}

// Eight bytes in steps of three are four reads, of 3, 3, 2 and no bytes.
#[test]
fn takes_all(rt: HostRuntime) -> Result<(), Fail> {
    for (limit, fails, want, faults) in [
        (8, 9, "all", 0),
        (7, 9, "long", 0),
        (8, 1, "fault", 1),
        (8, 2, "fault", 1),
        (8, 4, "fault", 1),
        (5, 2, "fault", 1),
    ] {
        let bytes = Vec::from_slice(rt.alloc(), b"abcdefgh")?;
        let mut source = MemSource::over(bytes, 3, vec![in rt.alloc(); fails]?);
        let taken = take_all(rt.alloc(), &mut source, limit);
        assert_eq!(rt; answer(&taken), want, "{limit} {fails}");
        assert_eq!(rt; source.faults, faults);
        if let Ok(bytes) = taken {
            assert_eq!(rt; bytes.as_slice(), b"abcdefgh".as_slice());
        }
    }
    Ok(())
}

// Six bytes in steps of two into as much room as is given.
#[test]
fn puts_all(rt: HostRuntime) -> Result<(), Fail> {
    for (room, fails, want) in [
        (6, 9, 6),
        (9, 9, 6),
        (5, 9, 5),
        (0, 9, 0),
        (6, 3, 4),
        (6, 1, 0),
    ] {
        let mut sink = MemSink::create(rt.alloc(), room, 2, vec![in rt.alloc(); fails]?)?;
        let put = put_all(&mut sink, b"abcdef");
        assert_eq!(rt; put.is_ok(), want == 6, "{room} {fails}");
        assert_eq!(rt; sink.bytes.as_slice(), &b"abcdef"[..want]);
        assert_eq!(rt; sink.faults, if want == 6 { 0 } else { 1 });
    }
    Ok(())
}

// At their last values the counts rest, and the call of that number does not fail.
#[test]
fn counts_rest(rt: HostRuntime) -> Result<(), Fail> {
    let fails = Vec::from_slice(rt.alloc(), &[5, u64::MAX])?;
    let mut source = MemSource::over(Vec::from_slice(rt.alloc(), b"abcd")?, 1, fails);
    let mut into = [0; 4];
    source.calls = 4;
    source.faults = u64::MAX;
    assert_eq!(rt; source.read(&mut into), Err(Failed));
    assert_eq!(rt; source.faults, u64::MAX);
    source.calls = u64::MAX - 1;
    assert_eq!(rt; source.read(&mut into), Ok(1));
    assert_eq!(rt; source.read(&mut into), Ok(1));
    assert_eq!(rt; source.calls, u64::MAX);
    Ok(())
}

// Bytes of std's reader come, and go to std's writer as far as it takes them.
#[test]
fn adapts(rt: HostRuntime) -> Result<(), Fail> {
    let mut source = StdSource::over(b"abc".as_slice());
    let taken = take_all(rt.alloc(), &mut source, 3)?;
    let mut room = [0; 2];
    let mut sink = StdSink::over(room.as_mut_slice());
    assert_eq!(rt; put_all(&mut sink, &taken), Err(Failed));
    assert_eq!(rt; (source.faults, sink.faults), (0, 1));
    assert_eq!(rt; room.as_slice(), b"ab".as_slice());
    Ok(())
}
