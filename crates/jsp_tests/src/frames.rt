//! A stream is read where there is memory. Its frames were worked out by hand.
use jsp_frame::{NoMemory, frames_of};
use std::alloc::Global;
use std::test::Fail;

// Three frames, of 2, 0 and 258 bytes, and then a length past the limit.
fn three_frames(alloc: Global) -> Result<Vec<u8>, NoMemory> {
    let mut stream = Vec::new(alloc);
    stream.extend_from_slice(&[0, 0, 0, 2, 11, 12])?;
    stream.extend_from_slice(&[0, 0, 0, 0])?;
    stream.extend_from_slice(&[0, 0, 1, 2])?;
    stream.extend_from_slice(&[31; 258])?;
    stream.extend_from_slice(&[0, 0, 1, 3])?;
    Ok(stream)
}

#[test]
fn a_stream_is_read_byte_by_byte(rt: HostRuntime) -> Result<(), Fail> {
    let alloc = rt.alloc();
    let mut pieces = Vec::new(alloc);
    for byte in &three_frames(alloc)? {
        pieces.push(Vec::from_slice(alloc, &[*byte])?)?;
    }
    let reading = frames_of(alloc, 258, pieces.as_slice())?;
    let expected: [&[u8]; 3] = [&[11, 12], &[], &[31; 258]];
    assert!(rt; reading.too_long && reading.payloads.len() == 3);
    for (payload, expected) in reading.payloads.iter().zip(expected) {
        assert_eq!(rt; payload.as_slice(), expected);
    }
    Ok(())
}
