//! What no clause says: that memory is there, and that the two adapters read, write and flush as they are asked to.
use pol_streams::{
    IoSink, IoSource, MemSink, MemSource, Memory, ReadAllError, read_all, write_all,
};
use std::alloc::Global;
use std::io::{self, Write};
use std::test::Fail;

// 250 bytes, all different.
fn input(alloc: Global) -> Result<Vec<u8>, Memory> {
    (0..250u8).collect(alloc)
}

#[test]
fn a_source_in_pieces_is_read_whole(rt: HostRuntime) -> Result<(), Fail> {
    let alloc = rt.alloc();
    let bytes = input(alloc)?;
    let mut source = MemSource::new(input(alloc)?, 100, Vec::new(alloc));
    assert_eq!(rt;
        read_all(alloc, &mut source, 250)?.as_slice(),
        bytes.as_slice()
    );
    // 100, 100, 50 and the end.
    assert_eq!(rt; source.calls(), 4);
    assert_eq!(rt; source.left().len(), 0);
    Ok(())
}

#[test]
fn an_input_is_too_long(rt: HostRuntime) -> Result<(), Fail> {
    let alloc = rt.alloc();
    let mut source = MemSource::new(input(alloc)?, 100, Vec::new(alloc));
    assert!(rt;
        matches!(
            read_all(alloc, &mut source, 249),
            Err(ReadAllError::TooLong)
        )
    );
    Ok(())
}

#[test]
fn a_text_is_written_whole(rt: HostRuntime) -> Result<(), Fail> {
    let alloc = rt.alloc();
    let mut sink = MemSink::new(alloc, 18, 10, Vec::new(alloc))?;
    write_all(&mut sink, b"ok 1 identity 256\n")?;
    assert_eq!(rt; sink.written(), b"ok 1 identity 256\n".as_slice());
    assert_eq!(rt; sink.calls(), 2);
    Ok(())
}

#[test]
fn a_reader_of_std_is_read(rt: HostRuntime) -> Result<(), Fail> {
    let alloc = rt.alloc();
    let mut source = IoSource::new(b"sync".as_slice());
    assert_eq!(rt;
        read_all(alloc, &mut source, 4)?.as_slice(),
        b"sync".as_slice()
    );
    Ok(())
}

#[test]
fn a_writer_of_std_is_written(rt: HostRuntime) -> Result<(), Fail> {
    let mut bytes = Vec::new(rt.alloc());
    let mut sink = IoSink::new(&mut bytes);
    write_all(&mut sink, b"synced 0\n")?;
    assert_eq!(rt; bytes.as_slice(), b"synced 0\n".as_slice());
    Ok(())
}

// A writer that counts how often it is flushed.
#[derive(Drop)]
struct Counting {
    flushes: u64,
}

impl Write for Counting {
    fn write(&mut self, bytes: &[u8]) -> io::Result<usize> {
        Ok(bytes.len().min(4))
    }

    fn flush(&mut self) -> io::Result<()> {
        self.flushes = self.flushes.saturating_add(1);
        Ok(())
    }
}

#[test]
fn each_write_is_flushed(rt: HostRuntime) -> Result<(), Fail> {
    let mut writer = Counting { flushes: 0 };
    let mut sink = IoSink::new(&mut writer);
    write_all(&mut sink, b"synced 0\n")?;
    // 4, 4 and 1 bytes.
    assert_eq!(rt; writer.flushes, 3);
    Ok(())
}
