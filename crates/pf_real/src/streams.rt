//! The standard streams, which a process may be started without.
use std::os::fd::{AsFd, IntoRawFd};
use std::{fs, io};

// The system's code for a descriptor that is not open.
const EBADF: i32 = 9;

fn is_closed<S: AsFd>(stream: &S) -> bool {
    match stream.as_fd().try_clone_to_owned() {
        Ok(_) => false,
        Err(fault) => fault.raw_os_error() == Some(EBADF),
    }
}

/// Takes up the descriptor of a standard stream that is closed, so that no file which is opened later is read or written as
/// that stream. The root folder is there from then on, open for reading: reading it as a stream is a fault, and so is
/// writing it. Each stream before this one has to be taken up already, since the system gives the lowest number that is free.
/// A fault where the stream is closed and the folder can not be opened.
pub fn take_up<S: AsFd>(rt: &HostRuntime, stream: &S) -> io::Result<()> {
    if is_closed(stream) {
        let _descriptor = fs::open(rt, "/")?.into_raw_fd();
    }
    Ok(())
}
