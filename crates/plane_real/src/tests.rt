use crate::{StdSink, StdSource};
use plane_io::{Failed, Sink, Source, read_to_end};
use std::fs;
use std::test::Fail;

#[test]
fn what_is_written_is_read(rt: HostRuntime) -> Result<(), Fail> {
    let mut sink = StdSink::new(fs::create(&rt, "lines")?);
    assert_eq!(rt; sink.write(b"link set dev eth0 up\n"), Ok(()));
    assert_eq!(rt; sink.write(b"two\n"), Ok(()));
    drop(sink);
    let mut source = StdSource::new(fs::open(&rt, "lines")?);
    let all = read_to_end(rt.alloc(), &mut source, 1000)?;
    assert_eq!(rt; all.as_slice(), b"link set dev eth0 up\ntwo\n".as_slice());
    fs::remove_file(&rt, "lines")?;
    Ok(())
}

#[test]
fn a_failure_is_told(rt: HostRuntime) -> Result<(), Fail> {
    let mut sink = StdSink::new(fs::open(&rt, "/dev/null")?);
    assert_eq!(rt; sink.write(b"x"), Err(Failed));
    let mut source = StdSource::new(fs::open(&rt, ".")?);
    assert_eq!(rt; source.read(&mut [0u8; 4]), Err(Failed));
    Ok(())
}
