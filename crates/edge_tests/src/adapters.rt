//! The adapters over readers, writers, generators and folders.

// Devices over std.

use crate::devices::{KEY, has_read, has_taken, is_drawn, is_key};
use ae_base::texts::Txt;
use ae_edge::adapters::entropy::RngEntropy;
use ae_edge::adapters::file::{FileSink, FileSource};
use ae_edge::adapters::folder::FolderVault;
use ae_edge::adapters::sink::StdSink;
use ae_edge::adapters::source::StdSource;
use ae_edge::entropies::{Draw, Entropy};
use ae_edge::sinks::{Close, Closing, Put, Sink};
use ae_edge::sources::{Source, Taken};
use ae_edge::streams::{WriteError, put_all, read_all};
use ae_edge::vaults::{MasterKey, Vault};
use rand_core::TryRng;
use std::io::{Cursor, ErrorKind, Read, Write};
use std::test::Fail;
use std::{env, fs, io, process};

// Its calls are interrupted, give two bytes, fail, and end.
#[derive(Drop)]
struct Uneven {
    calls: u8,
}

impl Read for Uneven {
    fn read(&mut self, buf: &mut [u8]) -> io::Result<usize> {
        let call = self.calls;
        self.calls = self.calls.saturating_add(1);
        match call {
            0 => Err(io::Error::from(ErrorKind::Interrupted)),
            1 if buf.len() >= 2 => {
                buf[0] = b'o';
                buf[1] = b'k';
                Ok(2)
            }
            2 => Err(io::Error::from(ErrorKind::Other)),
            _ => Ok(0),
        }
    }
}

#[test]
fn reads_from_a_reader(rt: HostRuntime) -> Result<(), Fail> {
    let alloc = rt.alloc();
    let mut whole = StdSource::new(Cursor::new(b"a script".as_slice()));
    assert!(rt; has_read(read_all(&mut whole, alloc, 8), b"a script"));
    let mut uneven = StdSource::new(Uneven { calls: 0 });
    assert!(rt; has_taken(uneven.take(alloc, 9), b"ok"));
    assert!(rt; matches!(uneven.take(alloc, 9), Taken::Failed));
    assert!(rt; matches!(uneven.take(alloc, 9), Taken::End));
    Ok(())
}

// It takes two bytes at a time, and is full after four.
#[derive(Drop)]
struct Narrow<'a> {
    taken: &'a mut Vec<u8>,
}

impl Write for Narrow<'_> {
    fn write(&mut self, buf: &[u8]) -> io::Result<usize> {
        if self.taken.len() >= 4 {
            return Ok(0);
        }
        let n = buf.len().min(2);
        self.taken.extend_from_slice(&buf[..n])?;
        Ok(n)
    }

    fn flush(&mut self) -> io::Result<()> {
        Ok(())
    }
}

#[test]
fn writes_to_a_writer(rt: HostRuntime) -> Result<(), Fail> {
    let alloc = rt.alloc();
    let mut taken = Vec::new(alloc);
    let mut sink = StdSink::new(Narrow { taken: &mut taken });
    assert_eq!(rt; put_all(&mut sink, b"abcd"), Ok(()));
    assert_eq!(rt; put_all(&mut sink, b""), Ok(()));
    assert_eq!(rt; put_all(&mut sink, b"e"), Err(WriteError::Failed));
    assert_eq!(rt; taken.as_slice(), b"abcd".as_slice());
    Ok(())
}

// It fills with the number of the call, from 0, and fails at call 1.
#[derive(Drop)]
struct Counted {
    calls: u8,
}

impl TryRng for Counted {
    type Error = io::Error;

    fn try_next_u32(&mut self) -> io::Result<u32> {
        Ok(0)
    }

    fn try_next_u64(&mut self) -> io::Result<u64> {
        Ok(0)
    }

    fn try_fill_bytes(&mut self, dst: &mut [u8]) -> io::Result<()> {
        let call = self.calls;
        self.calls = self.calls.saturating_add(1);
        if call == 1 {
            return Err(io::Error::from(ErrorKind::Other));
        }
        dst.fill(call);
        Ok(())
    }
}

#[test]
fn draws_from_a_generator(rt: HostRuntime) {
    let mut entropy = RngEntropy::new(Counted { calls: 0 });
    assert!(rt; is_drawn(entropy.draw(), 0));
    assert!(rt; matches!(entropy.draw(), Draw::Failed));
    assert!(rt; is_drawn(entropy.draw(), 2));
}

#[derive(Clone, Copy)]
enum Want {
    Key,
    Nothing,
    Fault,
}

struct KeyFile {
    path: &'static str,
    content: &'static str,
    want: Want,
}

const KEY_FILES: [KeyFile; 9] = [
    KeyFile {
        path: "plain",
        content: "000102030405060708090a0b0c0d0e0f101112131415161718191a1b1c1d1e1f",
        want: Want::Key,
    },
    KeyFile {
        path: "line_end",
        content: "000102030405060708090a0b0c0d0e0f101112131415161718191a1b1c1d1e1f\n",
        want: Want::Key,
    },
    KeyFile {
        path: "CAPITALS-1",
        content: "000102030405060708090A0B0C0D0E0F101112131415161718191A1B1C1D1E1F",
        want: Want::Key,
    },
    KeyFile {
        path: "short",
        content: "000102030405060708090a0b0c0d0e0f101112131415161718191a1b1c1d1e1",
        want: Want::Fault,
    },
    KeyFile {
        path: "cr_lf",
        content: "000102030405060708090a0b0c0d0e0f101112131415161718191a1b1c1d1e1f\r\n",
        want: Want::Fault,
    },
    KeyFile {
        path: "two_lines",
        content: "000102030405060708090a0b0c0d0e0f101112131415161718191a1b1c1d1e1f\n\n",
        want: Want::Fault,
    },
    KeyFile {
        path: "blank",
        content: " 000102030405060708090a0b0c0d0e0f101112131415161718191a1b1c1d1e1f",
        want: Want::Fault,
    },
    KeyFile {
        path: "empty",
        content: "",
        want: Want::Fault,
    },
    KeyFile {
        path: "a.b",
        content: "000102030405060708090a0b0c0d0e0f101112131415161718191a1b1c1d1e1f",
        want: Want::Nothing,
    },
];

fn is_wanted(found: MasterKey, want: Want) -> bool {
    match want {
        Want::Key => is_key(found, &KEY),
        Want::Nothing => matches!(found, MasterKey::NotThere),
        Want::Fault => matches!(found, MasterKey::Failed),
    }
}

fn write_key_files(rt: &HostRuntime, folder: &str) -> Result<(), Fail> {
    for file in &KEY_FILES {
        let name = format!(in rt.alloc(); "{folder}/{}.key", file.path)?;
        fs::write(rt, name.as_str(), file.content.as_bytes())?;
    }
    Ok(())
}

fn finds(rt: &HostRuntime, folder: &str, path: &str, want: Want) -> Result<bool, Fail> {
    let mut vault = FolderVault::new(rt.alloc(), rt, folder)?;
    let found = vault.master(&Txt::copied(rt.alloc(), path)?);
    Ok(is_wanted(found, want))
}

fn folder_name(rt: &HostRuntime) -> Result<String, Fail> {
    let parent = env::temp_dir(rt)?;
    let number = process::id(rt.process());
    Ok(format!(in rt.alloc(); "{}/outside_tests_{number}", parent.display())?)
}

#[test]
fn finds_the_keys_of_a_folder(rt: HostRuntime) -> Result<(), Fail> {
    let folder = folder_name(&rt)?;
    fs::create_dir_all(&rt, folder.as_str())?;
    write_key_files(&rt, folder.as_str())?;
    for file in &KEY_FILES {
        assert!(rt;
            finds(&rt, folder.as_str(), file.path, file.want)?,
            "at {}",
            file.path
        );
    }
    for path in ["missing", "../x", ""] {
        assert!(rt;
            finds(&rt, folder.as_str(), path, Want::Nothing)?,
            "at {path}"
        );
    }
    fs::remove_dir_all(&rt, folder.as_str())?;
    Ok(())
}

#[test]
fn a_file_that_cannot_be_opened_fails(rt: HostRuntime) {
    let mut source = FileSource::new(&rt, "no such folder/replies.bin");
    assert!(rt; matches!(source.take(rt.alloc(), 9), Taken::Failed));
    let mut sink = FileSink::new(&rt, "no such folder/tap.bin");
    assert!(rt; matches!(sink.put(b"frames"), Put::Failed));
    assert!(rt; matches!(sink.close(), Closing::Failed));
}
