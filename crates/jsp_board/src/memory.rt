//! How much memory the process takes.
use std::fs::{File, Files};
use std::io::Read;

/// Where Linux tells the sizes of the process, in pages: of all of it, and of what is in memory.
const SIZES: &str = "/proc/self/statm";

/// How many bytes a page has.
const PAGE: u64 = 4096;

/// How many bytes of the process are in memory, where that can be read.
pub(crate) fn resident_memory<R: Files<File = File>>(rt: &R) -> Option<u64> {
    let mut file = File::open(rt, SIZES).ok()?;
    let mut text = [0; 128];
    let count = file.read(&mut text).ok()?;
    let text = str::from_utf8(&text[..count]).ok()?;
    let pages = text.split_ascii_whitespace().nth(1)?;
    Some(pages.parse::<u64>().ok()?.saturating_mul(PAGE))
}
