//! Folders and sinks in memory.

use lv_base::Text;
use lv_outside::{
    Failed, FileFail, Folder, Got, MemFolder, MemSink, NoFaultFolder, NoFaultSink, Sink,
    names_differ,
};
use std::alloc::{AllocError, Global};
use std::process::Abort;
use std::test::Fail;

fn entry(alloc: Global, name: &str, text: &str) -> Result<(Text, Vec<u8>), AllocError> {
    Ok((
        Text::new(name.as_bytes().to_vec(alloc)?),
        text.as_bytes().to_vec(alloc)?,
    ))
}

fn two_files(alloc: Global, fails: &[u32]) -> Result<MemFolder, Fail> {
    let files = vec![in alloc; entry(alloc, "a", "one")?, entry(alloc, "b", "two")?]?;
    let fails = fails.to_vec(alloc)?;
    if names_differ(&files) {
        Ok(MemFolder::new(files, fails))
    } else {
        Err(Fail::from(AllocError))
    }
}

/// A read's answer as a test compares it: its bytes, `longer` or the failure.
pub fn read(
    rt: &(impl Abort + AllocGlobal),
    folder: &mut impl Folder,
    name: &str,
    most: usize,
    want: Result<&str, FileFail>,
) {
    match folder.read(rt.alloc(), name, most) {
        Ok(Got::Bytes(bytes)) => assert_eq!(rt; Ok(bytes.as_slice()), want.map(|t| t.as_bytes())),
        Ok(Got::Longer) => assert_eq!(rt; Ok("longer"), want),
        Err(fail) => assert_eq!(rt; Err(fail), want),
    }
}

#[test]
fn a_folder_in_memory_fails_where_it_is_told(rt: HostRuntime) -> Result<(), Fail> {
    let alloc = rt.alloc();
    let mut folder = two_files(alloc, &[1, 5])?;
    read(&rt, &mut folder, "a", 3, Ok("one"));
    read(&rt, &mut folder, "a", 3, Err(FileFail::Failed));
    read(&rt, &mut folder, "b", 2, Ok("longer"));
    read(&rt, &mut folder, "c", 9, Err(FileFail::Failed));
    assert_eq!(rt; folder.write(alloc, "c", b"new"), Ok(()));
    assert_eq!(rt; folder.write(alloc, "a", b"lost"), Err(FileFail::Failed));
    read(&rt, &mut folder, "c", 9, Ok("new"));
    read(&rt, &mut folder, "a", 9, Ok("one"));
    assert_eq!(rt; folder.write(alloc, "a", b""), Ok(()));
    read(&rt, &mut folder, "a", 0, Ok(""));
    assert_eq!(rt; folder.calls(), 10);
    assert_eq!(rt; folder.fails(), [1, 5].as_slice());
    assert_eq!(rt; folder.files().len(), 3);
    Ok(())
}

#[test]
fn a_folder_without_faults_reads_what_is_missing_as_empty(rt: HostRuntime) -> Result<(), Fail> {
    let alloc = rt.alloc();
    let files = vec![in alloc; entry(alloc, "a", "one")?]?;
    if names_differ(&files) {
        let mut folder = NoFaultFolder::new(files);
        read(&rt, &mut folder, "b", 0, Ok(""));
        assert_eq!(rt; folder.write(alloc, "b", b"two"), Ok(()));
        read(&rt, &mut folder, "b", 3, Ok("two"));
        read(&rt, &mut folder, "a", 2, Ok("longer"));
        assert_eq!(rt; folder.files().len(), 2);
    } else {
        assert!(rt; false);
    }
    let twice = vec![in alloc; entry(alloc, "a", "one")?, entry(alloc, "a", "two")?]?;
    assert!(rt; !names_differ(&twice));
    Ok(())
}

#[test]
fn a_sink_in_memory_fails_past_its_room_and_where_it_is_told(rt: HostRuntime) -> Result<(), Fail> {
    let Ok(mut sink) = MemSink::new(rt.alloc(), 5, [1].to_vec(rt.alloc())?) else {
        return Err(Fail::from(AllocError));
    };
    assert_eq!(rt; sink.put(b"abc"), Ok(()));
    assert_eq!(rt; sink.put(b"d"), Err(Failed));
    assert_eq!(rt; sink.put(b"def"), Err(Failed));
    assert_eq!(rt; sink.put(b"de"), Ok(()));
    assert_eq!(rt; sink.text(), b"abcde".as_slice());
    assert_eq!(rt; sink.room(), 5);
    assert_eq!(rt; sink.fails(), [1].as_slice());
    assert_eq!(rt; sink.calls(), 4);
    Ok(())
}

#[test]
fn a_sink_without_faults_drops_what_passes_its_room(rt: HostRuntime) -> Result<(), Fail> {
    let Ok(mut sink) = NoFaultSink::new(rt.alloc(), 4) else {
        return Err(Fail::from(AllocError));
    };
    assert_eq!(rt; sink.put(b"abc"), Ok(()));
    assert_eq!(rt; sink.text(), b"abc".as_slice());
    assert_eq!(rt; sink.put(b"def"), Ok(()));
    assert_eq!(rt; sink.text(), b"abcd".as_slice());
    assert_eq!(rt; sink.room(), 4);
    Ok(())
}
