//! Addresses as they are printed.
ghost use Rattle.std.specs.Prelude.{◌≡◌, ◌++◌, false, IfOk, OnOk};
ghost use Rattle.std.specs.List.{flat_map, list_all};
ghost use Rattle.pf_base.specs.Text.Printing.{printed as shown};
ghost use Rattle.pf_addr.specs.Clauses.Quoted.{unquoted};
ghost use Rattle.pf_addr.specs.Grammar.{IsSpelling};
ghost use Rattle.pf_addr.specs.Printed.{IsDomainOrNone};
ghost use Rattle.pf_addr.specs.Printed as spec;

use crate::address::{Address, AddressRef};
use crate::classes::is_atom_byte;
use crate::quoted::{has_pairs, means_nothing, takes_next};
use pf_base::{Bytes, NoMemory, add_printed};
use std::alloc::Global;

fn has_atom_bytes(local: &[u8]) -> bool
    ensures { result ≡ list_all spec.is_atom_byte local.now }
{
    local.iter().all(|b| is_atom_byte(*b))
}

// Adds the content of a quoted string.
fn push_content(local: &[u8], text: &mut Bytes) -> Result<(), NoMemory>
    ensures { OnOk result (text.new ≡ text.old ++ flat_map spec.escaped local.now) }
{
    for b in local {
        push_escaped(*b, text)?;
    }
    Ok(())
}

// Adds a byte, after a backslash where it needs one.
#[tactic(auto, unfolding(crate::specs::Printed::escaped))]
fn push_escaped(b: u8, text: &mut Bytes) -> Result<(), NoMemory>
    ensures { OnOk result (text.new ≡ text.old ++ spec.escaped b) }
{
    if b == b'"' || b == b'\\' {
        text.extend(&[b'\\', b])
    } else {
        text.push(b)
    }
}

#[tactic(auto, unfolding(crate::specs::Printed::printed_local))]
fn push_local(local: &[u8], text: &mut Bytes) -> Result<(), NoMemory>
    ensures { OnOk result (text.new ≡ text.old ++ spec.printed_local local.now) }
{
    if 0 < local.len() && has_atom_bytes(local) {
        return text.extend(local);
    }
    text.push(b'"')?;
    push_content(local, text)?;
    text.push(b'"')
}

#[tactic(auto, unfolding(crate::specs::Printed::printed_domain))]
fn push_domain(domain: &[u8], text: &mut Bytes) -> Result<(), NoMemory>
    ensures { OnOk result (text.new ≡ text.old ++ spec.printed_domain domain.now) }
{
    if domain.is_empty() {
        Ok(())
    } else {
        text.extend_all(&[b"@", domain])
    }
}

/// An address as it is printed: its local part, in quotes where it is empty or has a byte that is neither an atom's nor a
/// dot (RFC 5322, 3.2.3), and after an at sign its domain, where there is one. What is printed is a path whose address it
/// is, if the domain is one of the grammar.
#[tactic(auto, unfolding(crate::specs::Printed::printed))]
pub fn print(alloc: Global, address: &Address) -> Result<Bytes, NoMemory>
    ensures form { IfOk result (λ text. text ≡ spec.printed address.now) }
    ensures spells { IsDomainOrNone address.now.domain → IfOk result (λ text. IsSpelling text (spec.read_again address.now)) }
{
    let mut text = Bytes::new(alloc);
    push_local(address.local.as_slice(), &mut text)?;
    push_domain(address.domain.as_slice(), &mut text)?;
    Ok(text)
}

// Whether what the content of a quoted string means has bytes of atoms and dots alone.
fn means_atoms(content: &[u8]) -> bool
    ensures { result ≡ list_all spec.is_atom_byte (unquoted false content.now) }
{
    let mut taken = false;
    for b in content {
        taken = takes_next(taken, *b);
        if !taken && !is_atom_byte(*b) {
            return false;
        }
    }
    true
}

// Adds a byte, after a backslash where it needs one, and a control byte as a question mark.
#[tactic(auto, unfolding(crate::specs::Printed::escaped))]
fn add_escaped(b: u8, text: &mut Bytes) -> Result<(), NoMemory>
    ensures { OnOk result (text.new ≡ text.old ++ shown (spec.escaped b)) }
{
    if b == b'"' || b == b'\\' {
        add_printed(text, &[b'\\', b])
    } else {
        add_printed(text, &[b])
    }
}

// Adds what the content of a quoted string means as the content of a printed one.
fn add_content(content: &[u8], text: &mut Bytes) -> Result<(), NoMemory>
    ensures { OnOk result (text.new ≡ text.old ++ shown (flat_map spec.escaped (unquoted false content.now))) }
{
    if !has_pairs(content) {
        return add_printed(text, content);
    }
    let mut taken = false;
    for b in content {
        taken = takes_next(taken, *b);
        if !taken {
            add_escaped(*b, text)?;
        }
    }
    Ok(())
}

#[tactic(auto, unfolding(crate::specs::Printed::printed_local))]
fn add_local(content: &[u8], text: &mut Bytes) -> Result<(), NoMemory>
    ensures { OnOk result (text.new ≡ text.old ++ shown (spec.printed_local (unquoted false content.now))) }
{
    if !means_nothing(content) && means_atoms(content) {
        return add_content(content, text);
    }
    text.push(b'"')?;
    add_content(content, text)?;
    text.push(b'"')
}

#[tactic(auto, unfolding(crate::specs::Printed::printed_domain))]
fn add_domain(domain: &[u8], text: &mut Bytes) -> Result<(), NoMemory>
    ensures { OnOk result (text.new ≡ text.old ++ shown (spec.printed_domain domain.now)) }
{
    if domain.is_empty() {
        return Ok(());
    }
    text.push(b'@')?;
    add_printed(text, domain)
}

impl<'a> AddressRef<'a> {
    /// Adds the address as `print` prints it, but control bytes as question marks.
    #[tactic(auto, unfolding(crate::specs::Printed::printed))]
    pub fn print(&self, text: &mut Bytes) -> Result<(), NoMemory>
        ensures { OnOk result (text.new ≡ text.old ++ shown (spec.printed self.now)) }
    {
        add_local(self.content, text)?;
        add_domain(self.domain, text)
    }
}
