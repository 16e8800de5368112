//! Addresses as mail carries them: how a path is spelled, what it means, and how an address is printed (RFC 5321, 4.1.2).
#![tactic(auto)]

mod address;
mod classes;
mod domain;
mod local_part;
mod mailbox;
mod printing;
mod quoted;
mod reading;
mod route;

pub use address::{Address, AddressRef, Path, PathFault, PathRead};
pub use printing::print;
pub use reading::{path, path_ref};
