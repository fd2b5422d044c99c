//! A certificate is read by workers as by one.

use cert_reading::{read_cert_by, read_shared};
use cert_text::{read_cert, write_cert};
use std::alloc::{AllocError, Global};
use std::test::*;
use std::thread::Threads;

const LOGS: usize = 60;

const CHAINS: usize = 75;

// A certificate of so many logs, with some words behind them.
fn certificate(alloc: Global, logs: usize, close: &[u8]) -> Result<Vec<u8>, AllocError> {
    let mut text = Vec::new(alloc);
    text.extend_from_slice(b"lac 1\nsource ")?;
    for _ in 0..64 {
        text.push(b'a')?;
    }
    text.extend_from_slice(b"\nmodel lp64\nlayout 2\nterms 1\nl 7 8\nmap 1\n9\nlogs 60\n")?;
    for _ in 0..logs {
        text.extend_from_slice(b"log 75\n")?;
        for _ in 0..CHAINS {
            text.extend_from_slice(b"12 34 56 78 90\n")?;
        }
    }
    text.extend_from_slice(close)?;
    Ok(text)
}

#[test]
fn workers_read_what_one_reads(rt: HostRuntime) -> Result<(), Fail> {
    let alloc = rt.alloc();
    let text = certificate(alloc, LOGS, b"end\n")?;
    for workers in [2, 8, 64] {
        let Some(cert) = read_shared(&rt, alloc, &text, workers) else {
            return Err("not read by workers".into());
        };
        let written = write_cert(alloc, &cert).map_err(|_| "not written")?;
        assert_eq!(rt; written.as_slice(), text.as_slice());
    }
    Ok(())
}

#[test]
fn workers_refuse_what_one_refuses(rt: HostRuntime) -> Result<(), Fail> {
    let alloc = rt.alloc();
    let whole = certificate(alloc, LOGS, b"end\n")?;
    for at in [1, 20_000, whole.len().saturating_sub(1)] {
        let mut text = certificate(alloc, LOGS, b"end\n")?;
        if at < text.len() {
            text[at] = b'l';
        }
        refuses_alike(&rt, alloc, &text)?;
    }
    refuses_alike(&rt, alloc, &certificate(alloc, LOGS - 1, b"end\n")?)?;
    refuses_alike(&rt, alloc, &certificate(alloc, LOGS, b"log 0\nend\n")?)
}

// Any number of workers answers as one reader does, which refuses the text.
fn refuses_alike<R: Threads + Sync>(rt: &R, alloc: Global, text: &[u8]) -> Result<(), Fail> {
    let Err(one) = read_cert(alloc, text) else {
        return Err("read".into());
    };
    for workers in [1, 2, 8] {
        let Err(fail) = read_cert_by(rt, alloc, text, workers) else {
            return Err("read by workers".into());
        };
        if fail != one {
            return Err("another refusal".into());
        }
    }
    Ok(())
}
