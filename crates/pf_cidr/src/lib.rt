//! Addresses of hosts, nets of addresses and tables of nets: how they are written, how an address is printed, which addresses
//! a net has, and which rule of a table applies to an address (RFC 4291, 2.2; RFC 5952; cidr_table(5)).
#![tactic(auto)]

mod address;
mod entry;
mod net;
mod reason;
mod table;

pub use address::Addr;
pub use net::{Net, NetFault};
pub use table::CidrTable;
