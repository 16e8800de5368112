//! Steps of the system, beside the real objects.
use pf_real::take_up;
use std::fs::{File, Permissions};
use std::io::Write;
use std::os::fd::AsRawFd;
use std::os::unix::fs::{PermissionsExt, symlink};
use std::time::{Duration, UNIX_EPOCH};
use std::{fs, io};

/// A file that is locked, if one is.
#[derive(Drop)]
pub struct Lock {
    file: Option<File>,
}

impl Lock {
    pub fn new() -> Lock {
        Lock { file: None }
    }

    fn take(&mut self, rt: &HostRuntime, name: &str) -> io::Result<()> {
        let file = fs::create(rt, name)?;
        file.lock()?;
        self.file = Some(file);
        Ok(())
    }

    fn leave(&self) -> io::Result<()> {
        match &self.file {
            None => Err(io::Error::from(io::ErrorKind::NotFound)),
            Some(file) => file.unlock(),
        }
    }
}

/// Whether the next descriptor is the same once an open stream was to be taken up.
pub fn take_up_open(rt: &HostRuntime, name: &str) -> io::Result<String> {
    let stream = fs::create(rt, name)?;
    let free = fs::open(rt, name)?.as_raw_fd();
    take_up(rt, &stream)?;
    yes_or_no(rt, fs::open(rt, name)?.as_raw_fd() != free)
}

fn yes_or_no(rt: &HostRuntime, yes: bool) -> io::Result<String> {
    let text = if yes { "yes" } else { "no" };
    Ok(String::from_str(rt.alloc(), text)?)
}

// Writes a text into a file of this name as it is, which was last changed so long after 1970.
fn put(rt: &HostRuntime, name: &str, text: &str, age: Duration) -> io::Result<()> {
    let mut file = fs::create(rt, name)?;
    file.write_all(text.as_bytes())?;
    file.set_modified(UNIX_EPOCH.checked_add(age).unwrap_or(UNIX_EPOCH))
}

fn mode_text(mode: u32) -> &'static str {
    match mode & 0o777 {
        0o622 => "622",
        _ => "others",
    }
}

fn permissions(rt: &HostRuntime, name: &str) -> io::Result<String> {
    let permissions = fs::metadata(rt, name)?.permissions();
    Ok(String::from_str(rt.alloc(), mode_text(permissions.mode()))?)
}

fn target(rt: &HostRuntime, name: &str) -> io::Result<String> {
    let target = fs::read_link(rt, name)?;
    Ok(String::from_str(rt.alloc(), target.as_str())?)
}

// A step that changes something.
fn change(rt: &HostRuntime, lock: &mut Lock, step: &str, name: &str, text: &str) -> io::Result<()> {
    match step {
        "write" => fs::write(rt, name, text),
        "put-0s" => put(rt, name, text, Duration::ZERO),
        "put-1s" => put(rt, name, text, Duration::new(1, 0)),
        "put-1ns" => put(rt, name, text, Duration::new(0, 1)),
        "rename" => fs::rename(rt, name, text),
        "remove" => fs::remove_file(rt, name),
        "folder" => fs::create_dir(rt, name),
        "remove-folder" => fs::remove_dir_all(rt, name),
        "link" => symlink(rt, text, name),
        "permit" => fs::set_permissions(rt, name, Permissions::from_mode(0o622)),
        "lock" => lock.take(rt, name),
        "unlock" => lock.leave(),
        _ => Err(io::Error::from(io::ErrorKind::Unsupported)),
    }
}

/// Takes a step of the system, and says what it comes to; a fault where it fails.
pub fn system_step(
    rt: &HostRuntime,
    lock: &mut Lock,
    step: &str,
    name: &str,
    text: &str,
) -> io::Result<String> {
    match step {
        "text" => fs::read_to_string(rt, name),
        "there" => yes_or_no(rt, fs::symlink_metadata(rt, name).is_ok()),
        "target" => target(rt, name),
        "permissions" => permissions(rt, name),
        _ => {
            change(rt, lock, step, name, text)?;
            Ok(String::from_str(rt.alloc(), "ok")?)
        }
    }
}
