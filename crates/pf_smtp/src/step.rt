//! The steps of a session: one function for each verb.
ghost use Rattle.std.specs.Prelude.{◌≡◌, None, Some, IfOk};
ghost use Rattle.pf_smtp.specs.Clauses.Gives.{Gives};
ghost use Rattle.pf_smtp.specs.Step as step;

use crate::command::{Verb, after_keyword, argument_of, verb_of, whole_path};
use crate::entry::Entry;
use crate::reply::{HeloReply, LineReply, MailReply, QuitReply, RcptReply, Reply};
use crate::state::{Answer, Setup, State};
use pf_addr::{AddressRef, Path};
use pf_base::{NoMemory, trimmed, without_return};
use pf_eval::{PlainEnd, judge_plain};
use std::alloc::Global;

/// A line has at most so many bytes, without its line end.
pub(crate) const LINE_LIMIT: usize = 2048;

// One reply.
fn says<'a>(reply: Reply<'a>) -> Answer<'a>
    ensures { result ≡ record { reply = reply.entry; entry = None } }
{
    Answer { reply, entry: None }
}

// One reply and one log line.
fn logs<'a>(reply: Reply<'a>, logged: Entry<'a>) -> Answer<'a>
    ensures { result ≡ record { reply = reply.entry; entry = Some logged.entry } }
{
    Answer {
        reply,
        entry: Some(logged),
    }
}

// Whether the local part names a site that the mail goes on to.
fn is_routed(address: &AddressRef<'_>) -> bool
    ensures { result ≡ step.is_routed address.now }
{
    address.local_has(b'@') || address.local_has(b'!') || address.local_has(b'%')
}

// The domain that a recipient is judged by; that of a routed address says nothing.
fn judged_domain<'a>(address: &'a AddressRef<'_>) -> &'a [u8]
    ensures { result.now ≡ step.judged_domain address.now }
{
    if is_routed(address) {
        &[]
    } else {
        address.domain()
    }
}

// How the relay list ends for a recipient.
#[tactic(auto, unfolding(crate::specs::Step::relay_end))]
fn relay_end(setup: &Setup, recipient: &AddressRef<'_>) -> PlainEnd
    ensures { result ≡ step.relay_end setup.now recipient.now }
{
    judge_plain(&setup.policy, &setup.client, judged_domain(recipient))
}

impl State {
    fn helo<'a>(&mut self, argument: &'a [u8]) -> Answer<'a>
        ensures { Gives (step.helo self.old argument.now) self.new result }
    {
        if argument.is_empty() {
            return says(Reply::Helo(HeloReply::NeedsName));
        }
        self.sender = None;
        says(Reply::Helo(HeloReply::Hello))
    }

    fn mail<'a>(&mut self, alloc: Global, argument: &'a [u8]) -> Result<Answer<'a>, NoMemory>
        ensures { IfOk result (Gives (step.mail self.old argument.now) self.new) }
    {
        if self.sender.is_some() {
            return Ok(says(Reply::Mail(MailReply::Nested)));
        }
        let Some(text) = after_keyword(b"FROM:", argument) else {
            return Ok(says(Reply::Mail(MailReply::Syntax)));
        };
        let Some(sender) = whole_path(text) else {
            return Ok(says(Reply::Mail(MailReply::BadSender)));
        };
        self.sender = Some(sender.to_path(alloc)?);
        Ok(says(Reply::Mail(MailReply::Taken)))
    }

    fn rcpt<'a>(&mut self, setup: &Setup, argument: &'a [u8]) -> Answer<'a>
        ensures { Gives (step.rcpt setup.now self.old argument.now) self.new result }
    {
        if self.sender.is_none() {
            return says(Reply::Rcpt(RcptReply::NeedMail));
        }
        let Some(text) = after_keyword(b"TO:", argument) else {
            return says(Reply::Rcpt(RcptReply::Syntax));
        };
        let Some(Path::To(recipient)) = whole_path(text) else {
            return says(Reply::Rcpt(RcptReply::BadRecipient));
        };
        let line = self.line;
        match relay_end(setup, &recipient) {
            PlainEnd::Accept => logs(
                Reply::Rcpt(RcptReply::Taken),
                Entry::Accepted { line, recipient },
            ),
            PlainEnd::Deny { place } => logs(
                Reply::Rcpt(RcptReply::RelayDenied(recipient.again())),
                Entry::Denied {
                    line,
                    recipient,
                    place,
                },
            ),
        }
    }

    fn quit<'a>(&mut self, argument: &'a [u8]) -> Answer<'a>
        ensures { Gives (step.quit self.old argument.now) self.new result }
    {
        if argument.is_empty() {
            self.ended = true;
            return says(Reply::Quit(QuitReply::Bye));
        }
        says(Reply::Quit(QuitReply::Syntax))
    }

    #[tactic(auto, unfolding(crate::specs::Step::command))]
    fn command<'a>(
        &mut self,
        alloc: Global,
        setup: &Setup,
        verb: Verb,
        argument: &'a [u8],
    ) -> Result<Answer<'a>, NoMemory>
        ensures { IfOk result (Gives (step.command setup.now self.old verb argument.now) self.new) }
    {
        match verb {
            Verb::Empty => Ok(says(Reply::Line(LineReply::BadSyntax))),
            Verb::Helo => Ok(self.helo(argument)),
            Verb::Mail => self.mail(alloc, argument),
            Verb::Rcpt => Ok(self.rcpt(setup, argument)),
            Verb::Quit => Ok(self.quit(argument)),
            Verb::Other => Ok(says(Reply::Line(LineReply::NotRecognized))),
        }
    }

    /// Answers the next line, as it is before its line feed. The answer may name parts of the line.
    #[tactic(auto, unfolding(crate::specs::Step::step))]
    pub(crate) fn step<'a>(
        &mut self,
        alloc: Global,
        setup: &Setup,
        raw: &'a [u8],
    ) -> Result<Answer<'a>, NoMemory>
        ensures { IfOk result (Gives (step.step setup.now self.old raw.now) self.new) }
    {
        self.line = self.line.saturating_add(1);
        let line = without_return(raw);
        if line.len() > LINE_LIMIT {
            return Ok(says(Reply::Line(LineReply::TooLong)));
        }
        let line = trimmed(line);
        self.command(alloc, setup, verb_of(line), argument_of(line))
    }
}
