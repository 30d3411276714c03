//! Readers and writers that fail.
use crate::lines::{SOUND, Wire};
use crate::serving::{ERA, serve};
use crate::talks::FINDS;
use crate::watch::watch_of;
use jsp_floor::Closed;
use std::alloc::Global;
use std::sync::Wait;
use std::test::Fail;
use std::thread::Threads;
use std::time;

// Whether a line that writes an entry is written just these bytes, and each failure is told.
fn breaks<T: Threads + Wait + time::Clock + Sync>(
    rt: &T,
    alloc: Global,
    wire: Wire,
    written: &[u8],
    read_failed: bool,
    write_failed: bool,
) -> Result<bool, Fail> {
    let watch = watch_of(rt, alloc, &[])?;
    let Closed::Whole { lines, .. } = serve(rt, alloc, &watch, ERA, None, &FINDS[1..], wire)? else {
        return Ok(false);
    };
    let Some(line) = lines.get(0) else {
        return Ok(false);
    };
    Ok(
        line.written.as_slice() == written
            && line.read_failed == read_failed
            && line.write_failed == write_failed,
    )
}

const DECLARED: &[u8] = b"\x00\x00\x00\x12{\"id\":1,\"ok\":null}";

const WRITTEN: &[u8] =
    b"\x00\x00\x00\x12{\"id\":1,\"ok\":null}\x00\x00\x00\x23{\"id\":2,\"ok\":{\"lease\":1,\"ms\":1000}}";

#[test]
fn a_reader_fails_at_each_read_in_turn(rt: HostRuntime) -> Result<(), Fail> {
    for (reads, written) in [b"".as_slice(), DECLARED, WRITTEN].into_iter().enumerate() {
        let wire = Wire { reads, ..SOUND };
        assert!(rt; breaks(&rt, rt.alloc(), wire, written, true, false)?);
    }
    Ok(())
}

#[test]
fn a_writer_fails_at_each_byte_in_turn(rt: HostRuntime) -> Result<(), Fail> {
    for room in 0..WRITTEN.len() {
        for piece in [1, 1000] {
            for is_silent in [false, true] {
                let wire = Wire {
                    room,
                    piece,
                    is_silent,
                    ..SOUND
                };
                assert!(rt; breaks(&rt, rt.alloc(), wire, &WRITTEN[..room], false, true)?);
            }
        }
    }
    Ok(())
}

#[test]
fn a_writer_that_takes_a_byte_at_a_time_is_written_all(rt: HostRuntime) -> Result<(), Fail> {
    let wire = Wire { piece: 1, ..SOUND };
    assert!(rt; breaks(&rt, rt.alloc(), wire, WRITTEN, false, false)?);
    Ok(())
}
