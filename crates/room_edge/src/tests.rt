//! Sources and sinks, call by call.
use super::*;
use room_json::Bytes;
use std::test::Fail;

fn bytes_of(rt: &HostRuntime, text: &[u8]) -> Result<Bytes, Fail> {
    let mut bytes = Vec::new(rt.alloc());
    bytes.extend_from_slice(text)?;
    Ok(Bytes::from_vec(bytes))
}

#[test]
fn reads_and_fails(rt: HostRuntime) -> Result<(), Fail> {
    let fails = vec![in rt.alloc(); 2]?;
    let mut source = MemSource::new(bytes_of(&rt, b"abcde")?, fails);
    let mut sure = SureSource::new(bytes_of(&rt, b"abcd")?);
    let mut buffer = [0u8; 3];
    for (answer, front) in [
        (Ok(3), &b"abc"[..]),
        (Err(Failed), b"abc"),
        (Ok(2), b"de"),
        (Ok(0), b""),
    ] {
        assert_eq!(rt; source.read(&mut buffer), answer);
        assert!(rt; buffer.starts_with(front), "{front:?}");
    }
    for (answer, front) in [(Ok(3), &b"abc"[..]), (Ok(1), b"d"), (Ok(0), b"")] {
        assert_eq!(rt; sure.read(&mut buffer), answer);
        assert!(rt; buffer.starts_with(front), "{front:?}");
    }
    Ok(())
}

#[test]
fn writes_and_fails(rt: HostRuntime) -> Result<(), Fail> {
    let fails = vec![in rt.alloc(); 2, 4]?;
    let mut sink = MemSink::new(rt.alloc(), fails);
    let mut sure = SureSink::new(rt.alloc());
    for (piece, answer, written) in [
        (&b"ab"[..], Ok(2), &b"ab"[..]),
        (b"cd", Err(SinkFault::Failed), b"ab"),
        (b"", Ok(0), b"ab"),
        (b"", Err(SinkFault::Failed), b"ab"),
        (b"e", Ok(1), b"abe"),
    ] {
        assert_eq!(rt; sink.write(piece), answer);
        assert_eq!(rt; sink.written().as_slice(), written);
    }
    for (piece, written) in [(&b"ab"[..], &b"ab"[..]), (b"", b"ab"), (b"e", b"abe")] {
        assert_eq!(rt; sure.write(piece), Ok(piece.len()));
        assert_eq!(rt; sure.written().as_slice(), written);
    }
    Ok(())
}
