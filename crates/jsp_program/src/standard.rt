//! Standard input, output and error, which are open before anything else is opened.
use crate::fault::Fault;
use std::fs::{File, Files};
use std::io;
use std::os::fd::{AsRawFd, IntoRawFd};

/// What has nothing to read, and takes whatever is written.
const NULL_DEVICE: &str = "/dev/null";

/// The number of standard error, the last of the three.
const LAST: i32 = 2;

/// The error of Linux that says that a program has as many descriptors as it may have: `EMFILE`.
const NONE_LEFT: i32 = 24;

/// Opens the null device in the place of each of the three that is closed. A connection would have
/// its number otherwise, and be read or written in its place.
///
/// A file has the least number that is free. So where one has a number above the three, or no
/// number is left, all three are open.
pub(crate) fn open_standard<R: Files<File = File>>(rt: &R) -> Result<(), Fault> {
    for _ in 0..=LAST {
        match open_null_device(rt) {
            Ok(file) if file.as_raw_fd() > LAST => return Ok(()),
            Ok(file) => {
                // It stays open as long as the program runs.
                let _ = file.into_raw_fd();
            }
            Err(error) if error.raw_os_error() == Some(NONE_LEFT) => return Ok(()),
            Err(error) => return Err(Fault::Standard(error)),
        }
    }
    Ok(())
}

/// A descriptor of the null device.
pub(crate) fn open_null_device<R: Files<File = File>>(rt: &R) -> io::Result<File> {
    File::options().read(true).write(true).open(rt, NULL_DEVICE)
}
