//! The replies, an enum for each verb in the order of its checks, with their texts (RFC 5321, 4.2; RFC 3463).
ghost use Rattle.std.specs.Prelude.{◌≡◌, ◌++◌, OnOk};
ghost use Rattle.pf_base.specs.Text.Printing.{printed};
ghost use Rattle.pf_smtp.specs.Text as text;

use crate::printing::add_all_printed;
use pf_addr::AddressRef;
use pf_base::{Bytes, NoMemory, add_printed};

/// The replies to a line that is no command.
#[derive(Clone, Copy, Debug, PartialEq, Eq)]
pub enum LineReply {
    /// It has more than 2,048 bytes.
    TooLong,
    /// It is empty, or space alone.
    BadSyntax,
    /// Its verb is none of those that are built.
    NotRecognized,
}

/// The replies to HELO.
#[derive(Clone, Copy, Debug, PartialEq, Eq)]
pub enum HeloReply {
    /// There is no name.
    NeedsName,
    /// It was taken.
    Hello,
}

/// The replies to MAIL.
#[derive(Clone, Copy, Debug, PartialEq, Eq)]
pub enum MailReply {
    /// A transaction is open.
    Nested,
    /// The argument does not begin with `FROM:`.
    Syntax,
    /// What follows is no path, or something is after it.
    BadSender,
    /// The sender was taken.
    Taken,
}

/// The replies to RCPT.
#[derive(Debug, Drop)]
pub enum RcptReply<'a> {
    /// No transaction is open.
    NeedMail,
    /// The argument does not begin with `TO:`.
    Syntax,
    /// What follows is no path or the null path, or something is after it.
    BadRecipient,
    /// The relay list denied this recipient.
    RelayDenied(AddressRef<'a>),
    /// The recipient was accepted.
    Taken,
}

/// The replies to QUIT.
#[derive(Clone, Copy, Debug, PartialEq, Eq)]
pub enum QuitReply {
    /// There is an argument.
    Syntax,
    /// The session has ended.
    Bye,
}

/// A reply (RFC 5321, 4.2).
#[derive(Debug, Drop)]
pub enum Reply<'a> {
    Line(LineReply),
    Helo(HeloReply),
    Mail(MailReply),
    Rcpt(RcptReply<'a>),
    Quit(QuitReply),
}

#[tactic(auto, unfolding(crate::specs::Text::line_text))]
fn line_text(reply: LineReply) -> &'static [u8]
    ensures { result.now ≡ text.line_text reply }
{
    match reply {
        LineReply::TooLong => b"500 5.5.2 Error: line too long",
        LineReply::BadSyntax => b"500 5.5.2 Error: bad syntax",
        LineReply::NotRecognized => b"500 5.5.2 Error: command not recognized",
    }
}

#[tactic(auto, unfolding(crate::specs::Text::mail_text))]
fn mail_text(reply: MailReply) -> &'static [u8]
    ensures { result.now ≡ text.mail_text reply }
{
    match reply {
        MailReply::Nested => b"503 5.5.1 Error: nested MAIL command",
        MailReply::Syntax => b"501 5.5.4 Syntax: MAIL FROM:<address>",
        MailReply::BadSender => b"501 5.1.7 Bad sender address syntax",
        MailReply::Taken => b"250 2.1.0 Ok",
    }
}

#[tactic(auto, unfolding(crate::specs::Text::quit_text))]
fn quit_text(reply: QuitReply) -> &'static [u8]
    ensures { result.now ≡ text.quit_text reply }
{
    match reply {
        QuitReply::Syntax => b"501 5.5.4 Syntax: QUIT",
        QuitReply::Bye => b"221 2.0.0 Bye",
    }
}

#[tactic(auto, unfolding(crate::specs::Text::helo_text))]
fn print_helo(reply: HeloReply, host: &[u8], sent: &mut Bytes) -> Result<(), NoMemory>
    ensures { OnOk result (sent.new ≡ sent.old ++ printed (text.helo_text host.now reply)) }
{
    match reply {
        HeloReply::NeedsName => add_printed(sent, b"501 5.5.4 Syntax: HELO hostname"),
        HeloReply::Hello => add_all_printed(sent, &[b"250 ", host]),
    }
}

#[tactic(auto, unfolding(crate::specs::Text::relay_denied_text))]
fn print_relay_denied(address: &AddressRef<'_>, sent: &mut Bytes) -> Result<(), NoMemory>
    ensures { OnOk result (sent.new ≡ sent.old ++ printed (text.relay_denied_text address.now)) }
{
    add_printed(sent, b"554 5.7.1 <")?;
    address.print(sent)?;
    add_printed(sent, b">: Relay access denied")
}

#[tactic(auto, unfolding(crate::specs::Text::rcpt_text))]
fn print_rcpt(reply: &RcptReply<'_>, sent: &mut Bytes) -> Result<(), NoMemory>
    ensures { OnOk result (sent.new ≡ sent.old ++ printed (text.rcpt_text reply.now)) }
{
    match reply {
        RcptReply::NeedMail => add_printed(sent, b"503 5.5.1 Error: need MAIL command"),
        RcptReply::Syntax => add_printed(sent, b"501 5.5.4 Syntax: RCPT TO:<address>"),
        RcptReply::BadRecipient => add_printed(sent, b"501 5.1.3 Bad recipient address syntax"),
        RcptReply::RelayDenied(address) => print_relay_denied(address, sent),
        RcptReply::Taken => add_printed(sent, b"250 2.1.5 Ok"),
    }
}

impl<'a> Reply<'a> {
    // Adds the reply, control bytes as question marks, without its line end.
    fn print_text(&self, host: &[u8], sent: &mut Bytes) -> Result<(), NoMemory>
        ensures { OnOk result (sent.new ≡ sent.old ++ printed (text.reply_text host.now self.now)) }
    {
        match self {
            Reply::Line(reply) => add_printed(sent, line_text(*reply)),
            Reply::Helo(reply) => print_helo(*reply, host, sent),
            Reply::Mail(reply) => add_printed(sent, mail_text(*reply)),
            Reply::Rcpt(reply) => print_rcpt(reply, sent),
            Reply::Quit(reply) => add_printed(sent, quit_text(*reply)),
        }
    }

    /// Adds the reply as it is sent, control bytes as question marks, with its line end; `host` is the server's name.
    #[tactic(auto, unfolding(crate::specs::Text::text_of))]
    pub(crate) fn print(&self, host: &[u8], sent: &mut Bytes) -> Result<(), NoMemory>
        ensures { OnOk result (sent.new ≡ sent.old ++ text.text_of host.now self.now) }
    {
        self.print_text(host, sent)?;
        sent.extend(b"\r\n")
    }
}

/// Adds what the server says first, control bytes as question marks, with its line end; `banner` is its text after the code
/// (postconf(5), smtpd_banner).
#[tactic(auto, unfolding(crate::specs::Text::greeting_of))]
pub(crate) fn print_greeting(banner: &[u8], sent: &mut Bytes) -> Result<(), NoMemory>
    ensures { OnOk result (sent.new ≡ sent.old ++ text.greeting_of banner.now) }
{
    add_all_printed(sent, &[b"220 ", banner])?;
    sent.extend(b"\r\n")
}
