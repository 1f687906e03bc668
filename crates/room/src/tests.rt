//! One run through the real call.
use super::*;
use room_edge::MemSink;
use std::io::{Error, ErrorKind};
use std::test::Fail;

const USAGE: &str = "usage: room replay|serve|client|show|gen|patch|rooms\n";

fn replay(rt: &HostRuntime) -> Result<Vec<String>, Fail> {
    let word = String::from_str(rt.alloc(), "replay")?;
    Ok(vec![in rt.alloc(); word]?)
}

#[test]
fn ends_with_the_status(rt: HostRuntime) -> Result<(), Fail> {
    for (words, status, output) in [
        (Ok(replay(&rt)?), 0, "server n 0 {}\n"),
        (Ok(Vec::new(rt.alloc())), 2, USAGE),
        (Err(Error::from(ErrorKind::InvalidData)), 2, USAGE),
        (Err(Error::from(ErrorKind::OutOfMemory)), 1, ""),
    ] {
        let mut source = Reading::new(&b"show server\n"[..]);
        let mut sink = MemSink::new(rt.alloc(), Vec::new(rt.alloc()));
        let code = start::<PlainTree, _, _, _>(rt.alloc(), &rt, words, &mut source, &mut sink);
        assert_eq!(rt; code, ExitCode::from(status));
        assert_eq!(rt; sink.written().as_slice(), output.as_bytes());
    }
    Ok(())
}
