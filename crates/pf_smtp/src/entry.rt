//! The decision log: a line for each recipient that was judged.
ghost use Rattle.std.specs.Prelude.{◌≡◌, ◌++◌, OnOk};
ghost use Rattle.pf_base.specs.Text.Printing.{printed};
ghost use Rattle.pf_smtp.specs.Text as spec;

use crate::printing::add_all_printed;
use itoa::Buffer;
use pf_addr::AddressRef;
use pf_base::{Bytes, NoMemory, add_printed};

/// What was decided of a recipient, with the number of the command's line, from 1. A denial names the place, from 1, of
/// the restriction in smtpd_relay_restrictions that denied; only reject_unauth_destination denies.
#[derive(Debug, Drop)]
pub enum Entry<'a> {
    Accepted {
        line: u64,
        recipient: AddressRef<'a>,
    },
    Denied {
        line: u64,
        recipient: AddressRef<'a>,
        place: u64,
    },
}

// Adds what a line begins with: the number of the command's line, and its recipient.
#[tactic(auto, unfolding(crate::specs::Text::recipient_text))]
fn print_recipient(line: u64, recipient: &AddressRef<'_>, log: &mut Bytes) -> Result<(), NoMemory>
    ensures { OnOk result (log.new ≡ log.old ++ printed (spec.recipient_text line recipient.now)) }
{
    let mut digits = Buffer::new();
    add_all_printed(log, &[digits.format(line).as_bytes(), b" RCPT <"])?;
    recipient.print(log)?;
    add_printed(log, b"> ")
}

#[tactic(auto, unfolding(crate::specs::Text::accepted_text))]
fn print_accepted(line: u64, recipient: &AddressRef<'_>, log: &mut Bytes) -> Result<(), NoMemory>
    ensures { OnOk result (log.new ≡ log.old ++ printed (spec.accepted_text line recipient.now)) }
{
    print_recipient(line, recipient, log)?;
    add_printed(log, b"accept")
}

// Adds what denied a recipient.
#[tactic(auto, unfolding(crate::specs::Text::denial_text))]
fn print_denial(place: u64, log: &mut Bytes) -> Result<(), NoMemory>
    ensures { OnOk result (log.new ≡ log.old ++ printed (spec.denial_text place)) }
{
    let mut digits = Buffer::new();
    add_all_printed(
        log,
        &[
            b"deny smtpd_relay_restrictions[",
            digits.format(place).as_bytes(),
            b"] reject_unauth_destination -",
        ],
    )
}

#[tactic(auto, unfolding(crate::specs::Text::denied_text))]
fn print_denied(
    line: u64,
    recipient: &AddressRef<'_>,
    place: u64,
    log: &mut Bytes,
) -> Result<(), NoMemory>
    ensures { OnOk result (log.new ≡ log.old ++ printed (spec.denied_text line recipient.now place)) }
{
    print_recipient(line, recipient, log)?;
    print_denial(place, log)
}

impl<'a> Entry<'a> {
    // Adds the text of its line, control bytes as question marks.
    fn print_text(&self, log: &mut Bytes) -> Result<(), NoMemory>
        ensures { OnOk result (log.new ≡ log.old ++ printed (spec.entry_text self.now)) }
    {
        match self {
            Entry::Accepted { line, recipient } => print_accepted(*line, recipient, log),
            Entry::Denied {
                line,
                recipient,
                place,
            } => print_denied(*line, recipient, *place, log),
        }
    }

    /// Adds its line, control bytes as question marks, with its line feed.
    #[tactic(auto, unfolding(crate::specs::Text::log_line, pf_base::specs::Text::Printing::printed_line))]
    pub(crate) fn print(&self, log: &mut Bytes) -> Result<(), NoMemory>
        ensures { OnOk result (log.new ≡ log.old ++ spec.log_line self.now) }
    {
        self.print_text(log)?;
        log.push(b'\n')
    }
}
