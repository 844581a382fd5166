// What no clause says: that the calls find memory, and what they do at sources and sinks of memory.

ghost use Rattle.std.specs.Prelude.{◌≤◌};

use crate::{
    Failed, Input, MemorySink, MemorySource, ReadAllFault, Sink, SureSink, TextBuffer, read_all,
    write_all,
};
use std::test::Fail;

// Reads a text, so many bytes at a call, with failing calls.
fn read(
    rt: &HostRuntime,
    text: &[u8],
    give: usize,
    fail: &[u32],
    limit: usize,
) -> Result<Result<Input, ReadAllFault>, Fail>
    requires { 1 ≤ give }
{
    let alloc = rt.alloc();
    let mut source = MemorySource::new(text.to_vec(alloc)?, give, fail.to_vec(alloc)?);
    Ok(read_all(alloc, &mut source, limit))
}

#[test]
fn whole_up_to_the_limit(rt: HostRuntime) -> Result<(), Fail> {
    for (limit, give) in [(6, 1), (6, 4), (7, 6), (100_000, 8)] {
        match read(&rt, b"bodies", give, &[], limit)? {
            Ok(Input::Whole(bytes)) => assert!(rt; bytes.as_slice() == b"bodies".as_slice()),
            _ => assert!(rt; false, "limit {limit}, give {give}"),
        }
    }
    assert!(rt; matches!(read(&rt, b"bodies", 1, &[], 5)?, Ok(Input::TooLong)));
    assert!(rt; matches!(read(&rt, b"bodies", 9, &[], 0)?, Ok(Input::TooLong)));
    Ok(())
}

#[test]
fn second_call_fails(rt: HostRuntime) -> Result<(), Fail> {
    let answer = read(&rt, b"bodies", 4, &[2], 100)?;
    assert!(rt; matches!(answer, Err(ReadAllFault::Failed)));
    Ok(())
}

#[test]
fn sinks_of_memory(rt: HostRuntime) -> Result<(), Fail> {
    let alloc = rt.alloc();
    let mut slow = MemorySink::new(alloc, 100, 1, Vec::new(alloc))?;
    assert_eq!(rt; write_all(&mut slow, b"tree (b0...b1...)"), Ok(()));
    assert!(rt; slow.bytes() == b"tree (b0...b1...)".as_slice());
    let mut small = MemorySink::new(alloc, 10, 4, Vec::new(alloc))?;
    assert_eq!(rt; write_all(&mut small, b"tree (b0...b1...)"), Err(Failed));
    assert!(rt; small.bytes() == b"tree (b0..".as_slice());
    let mut sure = SureSink::new(alloc, 10)?;
    assert_eq!(rt; write_all(&mut sure, b"tree (b0...b1...)"), Ok(()));
    assert_eq!(rt; sure.write_some(b"more"), Ok(4));
    Ok(())
}

// Puts a text part by part, and finishes.
fn put_parts<K: Sink>(sink: &mut K, part: &[u8], count: u32) -> Result<(), Failed> {
    let mut buffer = TextBuffer::new();
    for _number in 0..count {
        buffer.put(sink, part)?;
    }
    buffer.finish(sink)
}

#[test]
fn text_longer_than_two_pieces(rt: HostRuntime) -> Result<(), Fail> {
    let alloc = rt.alloc();
    let part = b"0123456789abcde";
    let mut sink = MemorySink::new(alloc, 150_000, 150_000, Vec::new(alloc))?;
    assert_eq!(rt; put_parts(&mut sink, part, 10_000), Ok(()));
    assert_eq!(rt; sink.bytes().len(), 150_000);
    assert!(rt;
        sink.bytes()
            .chunks(15)
            .all(|chunk| chunk == part.as_slice())
    );
    let second = [2].to_vec(alloc)?;
    let mut broken = MemorySink::new(alloc, 150_000, 150_000, second)?;
    assert_eq!(rt; put_parts(&mut broken, part, 10_000), Err(Failed));
    assert_eq!(rt; broken.bytes().len(), 65_536);
    Ok(())
}
