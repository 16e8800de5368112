//! Connections to policy services (SMTPD_POLICY_README).
ghost use Rattle.std.specs.Prelude.{◌≡◌, is_err};
ghost use Rattle.std.specs.Option.{option_map};
ghost use Rattle.std.specs.Io.{ReadsAtMost};
ghost use Rattle.pf_asks.specs.Clauses.Causes.{counted_if, outer_failed};
ghost use Rattle.pf_asks.specs.Clauses.Held.{Held};
ghost use Rattle.pf_asks.specs.Wire.{Connects, Receives, Sends, Wire, hung_up};

use pf_base::{Bytes, Failed, OuterFault};

/// The step of a try at which it failed.
#[derive(Clone, Copy, Debug, PartialEq, Eq)]
pub enum LinkStep {
    /// The service did not take the connection.
    Connect,
    /// The request could not be sent whole.
    Send,
    /// The reply could not be read to its end.
    Receive,
}

/// What one try gives (SMTPD_POLICY_README).
#[derive(Debug, PartialEq, Eq, Drop)]
pub enum Outcome {
    /// It failed at this step.
    Down(LinkStep),
    /// The bytes of the service's reply.
    Reply(Bytes),
}

/// A request to a policy service, or what was sent of one.
#[derive(Debug, PartialEq, Eq, Drop)]
pub struct Request {
    /// The name of the service.
    pub service: Bytes,
    /// The bytes.
    pub text: Bytes,
}

/// Connections to policy services, one at a time. One try is a connect, sends, receives and a hang-up.
pub trait Links {
    /// What the tries to come give and what was sent in those that were made, and how often a call has failed.
    ghost held: { Self → Held Wire };

    /// Begins a try. `Failed` comes exactly where its outcome is Down at Connect, and the count of faults then goes up by one.
    /// After lack of memory the try is begun, or none is open.
    fn connect(&mut self, service: &[u8]) -> Result<(), OuterFault>
        ensures does { Connects (held self.old).content (held self.new).content result service.now }
        ensures cause { (held self.new).faults ≡ counted_if (outer_failed result) (held self.old).faults };

    /// Sends the whole piece, or, where it is refused, a prefix of it. `Failed` comes exactly where the outcome of the open
    /// try is Down at Send, and the count of faults then goes up by one. Where no try is open it is refused, and nothing is
    /// sent.
    fn send(&mut self, piece: &[u8]) -> Result<(), OuterFault>
        ensures does { Sends (held self.old).content (held self.new).content result piece.now }
        ensures cause { (held self.new).faults ≡ counted_if (outer_failed result) (held self.old).faults };

    /// Reads some bytes of the reply into the buffer and says how many: 0 at the end alone, where the buffer is not empty.
    /// `Failed` comes exactly where the outcome of the open try is Down at Receive, or where no try is open, and the count of
    /// faults then goes up by one.
    fn receive(&mut self, buf: &mut [u8]) -> Result<usize, Failed>
        ensures bound { ReadsAtMost result buf.new }
        ensures does { Receives (held self.old).content (held self.new).content result buf.new }
        ensures cause { (held self.new).faults ≡ counted_if (is_err result) (held self.old).faults };

    /// Ends the try.
    fn hang_up(&mut self)
        ensures does { (held self.new).content ≡ option_map hung_up (held self.old).content }
        ensures cause { (held self.new).faults ≡ (held self.old).faults };
}
