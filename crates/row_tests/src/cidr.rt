//! What pf_cidr says of addresses, nets and tables of nets as they are written.
//!
//! Of the kind `read` the text is an address and the
//! answer the address as it is printed, or `none`; of the kind `net` a net, and `net`, `host bits` or `syntax`; of the kind
//! `has` a net and on the next line an address, and `yes` or `no`; of the kind `table` the text of a table, and the number of its
//! rules or the line of its refusal; of the kind `find` an address and from the next line on the text of a table, and the result
//! of the first rule that applies, or `nothing`.
use pf_base::{Bytes, ConfFault, NoMemory, cut_at, decimal};
use pf_cidr::{Addr, CidrTable, Net, NetFault};
use std::alloc::Global;

// The name of each table's file.
const FILE: &[u8] = b"t";

// The printed address of a text.
fn printed(alloc: Global, text: &[u8]) -> Result<Bytes, NoMemory> {
    match Addr::read(text) {
        Some(addr) => addr.print(alloc),
        None => Bytes::from_slice(alloc, b"none"),
    }
}

// Whether a text is a net.
fn judged(text: &[u8]) -> &'static [u8] {
    match Net::read(text) {
        Ok(_) => b"net",
        Err(NetFault::HostBits) => b"host bits",
        Err(NetFault::Syntax) => b"syntax",
    }
}

// Whether a net has an address.
fn has(text: &[u8]) -> &'static [u8] {
    let Some((net, addr)) = cut_at(text, b'\n') else {
        return b"no address";
    };
    let Ok(net) = Net::read(net) else {
        return b"no net";
    };
    match Addr::read(addr) {
        None => b"no address",
        Some(addr) => { if net.has(&addr) { b"yes" } else { b"no" } }
    }
}

// How many rules a table has, or the line of its refusal without its line feed.
fn counted(alloc: Global, text: &[u8]) -> Result<Bytes, NoMemory> {
    match CidrTable::read(alloc, FILE, text) {
        Ok(table) => {
            let number = decimal(alloc, table.len())?;
            Bytes::from_slice(alloc, number.as_bytes())
        }
        Err(ConfFault::NoMemory) => Err(NoMemory),
        Err(ConfFault::Refused(refusal)) => {
            let line = refusal.line(alloc)?;
            match cut_at(line.as_slice(), b'\n') {
                Some((line, _)) => Bytes::from_slice(alloc, line),
                None => Bytes::from_slice(alloc, b"no line feed"),
            }
        }
    }
}

// The result of the first rule that applies.
fn result_for(alloc: Global, table: &CidrTable, addr: &Addr) -> Result<Bytes, NoMemory> {
    match table.find(addr) {
        Some(rule) => {
            if rule < table.len() {
                table.result(rule).copy(alloc)
            } else {
                Bytes::from_slice(alloc, b"no such rule")
            }
        }
        None => Bytes::from_slice(alloc, b"nothing"),
    }
}

fn found(alloc: Global, text: &[u8]) -> Result<Bytes, NoMemory> {
    let Some((addr, text)) = cut_at(text, b'\n') else {
        return Bytes::from_slice(alloc, b"no table");
    };
    let Some(addr) = Addr::read(addr) else {
        return Bytes::from_slice(alloc, b"no address");
    };
    match CidrTable::read(alloc, FILE, text) {
        Ok(table) => result_for(alloc, &table, &addr),
        Err(ConfFault::NoMemory) => Err(NoMemory),
        Err(ConfFault::Refused(_)) => Bytes::from_slice(alloc, b"refused"),
    }
}

// What is said of a text.
fn said_of(alloc: Global, kind: &str, text: &[u8]) -> Result<Bytes, NoMemory> {
    match kind {
        "read" => printed(alloc, text),
        "net" => Bytes::from_slice(alloc, judged(text)),
        "has" => Bytes::from_slice(alloc, has(text)),
        "table" => counted(alloc, text),
        "find" => found(alloc, text),
        _ => Bytes::from_slice(alloc, b"no such kind of row"),
    }
}

/// Adds what is said of a text, of what a row asks.
pub fn add_said(alloc: Global, said: &mut Bytes, kind: &str, text: &[u8]) -> Result<(), NoMemory> {
    said.extend(said_of(alloc, kind, text)?.as_slice())
}
