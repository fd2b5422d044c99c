//! The host's folder and sink.

use crate::memory::read;
use lv_outside::{Failed, FileFail, Folder, Got, HostFolder, HostSink, Sink, read_whole};
use std::fmt::Display;
use std::io;
use std::io::Read;
use std::sync::atomic::{AtomicU64, Ordering};
use std::test::Fail;

// Takes two bytes a write, so many times, and then none. The bytes are the digits of the text, in base 256.
#[derive(Drop)]
struct Short {
    text: AtomicU64,
    left: AtomicU64,
}

impl Short {
    fn new(left: u64) -> Short {
        Short {
            text: AtomicU64::new(0),
            left: AtomicU64::new(left),
        }
    }

    fn take(&self, byte: u8) {
        let text = self.text.load(Ordering::SeqCst);
        self.text.store(
            text.wrapping_mul(256).wrapping_add(byte as u64),
            Ordering::SeqCst,
        );
    }
}

impl Print for Short {
    fn print<D: Display + Drop>(&self, _value: D) -> io::Result<()> {
        Ok(())
    }

    fn println<D: Display + Drop>(&self, _value: D) -> io::Result<()> {
        Ok(())
    }

    fn write_all(&self, bytes: &[u8]) -> io::Result<()> {
        for byte in bytes {
            self.take(*byte);
        }
        Ok(())
    }

    fn write_some(&self, bytes: &[u8]) -> io::Result<usize> {
        let left = self.left.load(Ordering::SeqCst);
        if left == 0 {
            return Ok(0);
        }
        self.left.store(left - 1, Ordering::SeqCst);
        let taken = bytes.len().min(2);
        for byte in &bytes[..taken] {
            self.take(*byte);
        }
        Ok(taken)
    }
}

#[test]
fn short_writes_are_gone_on_with(rt: HostRuntime) {
    let whole = Short::new(3);
    let mut sink = HostSink::new(&whole);
    assert_eq!(rt; sink.put(b"abcde"), Ok(()));
    assert_eq!(rt; whole.text.load(Ordering::SeqCst), 0x61_62_63_64_65);
    let full = Short::new(2);
    let mut sink = HostSink::new(&full);
    assert_eq!(rt; sink.put(b"abcde"), Err(Failed));
    assert_eq!(rt; full.text.load(Ordering::SeqCst), 0x61_62_63_64);
}

// Gives two bytes a read at most.
#[derive(Drop)]
struct Drip<'a> {
    left: &'a [u8],
}

impl Read for Drip<'_> {
    fn read(&mut self, buf: &mut [u8]) -> io::Result<usize> {
        let given = self.left.len().min(2).min(buf.len());
        for (to, from) in buf.iter_mut().zip(&self.left[..given]) {
            *to = *from;
        }
        self.left = &self.left[given..];
        Ok(given)
    }
}

#[test]
fn short_reads_are_put_together(rt: HostRuntime) -> Result<(), Fail> {
    let text: &[u8] = b"abcde";
    match read_whole(rt.alloc(), &mut Drip { left: text }, 5) {
        Ok(Got::Bytes(bytes)) => assert_eq!(rt; bytes.as_slice(), text),
        Ok(Got::Longer) => return Err("no more than five bytes".into()),
        Err(_) => return Err("not read".into()),
    }
    let longer = read_whole(rt.alloc(), &mut Drip { left: text }, 4);
    assert!(rt; matches!(longer, Ok(Got::Longer)));
    Ok(())
}

#[test]
fn the_host_reads_what_it_wrote(rt: HostRuntime) -> Result<(), Fail> {
    let mut folder = HostFolder::new(rt.clone()?);
    assert_eq!(rt; folder.write(rt.alloc(), "written.tmp", b"text"), Ok(()));
    read(&rt, &mut folder, "written.tmp", 4, Ok("text"));
    read(&rt, &mut folder, "written.tmp", 3, Ok("longer"));
    read(&rt, &mut folder, "no such file", 3, Err(FileFail::Failed));
    let mut sink = HostSink::new(rt.clone()?);
    assert_eq!(rt; sink.put(b"a line\n"), Ok(()));
    Ok(())
}
