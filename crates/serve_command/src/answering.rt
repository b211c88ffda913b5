//! Whoever answers requests, one after another.

ghost use Rattle.std.specs.Prelude.{◌≡◌, ℕ, List, Option, OnOk};
ghost use Rattle.std.specs.Borrow.{GName};
ghost use Rattle.wire_messages.specs.declared.requests.Request.{Request};
ghost use Rattle.wire_payloads.specs.declared.versioned.Versioned.{Versioned};
ghost use Rattle.serve_command.specs.Requests.{Answers, CountsAnswer};

use ae_edge::sinks::Sink;
use std::alloc::Global;
use wire_messages::requests::Request;
use wire_payloads::versioned::Versioned;

/// Whoever answers requests, one after another. The device on which it keeps what they change is
/// lent to it at each.
pub trait Answering<D> {
    /// Why a request wasn't answered whole.
    type Stop: Copy;

    /// What is seen of it, of its device and of the output.
    ghost View: { Type 0 };

    ghost seen: { Self → D → Option (List ℕ) → View };

    /// A request can be answered.
    ghost is_ready: { View → Type 0 };

    /// A request was answered whole.
    ghost answers: { View → Versioned Request → View → Type 0 };

    /// It wasn't.
    ghost stops: { Self.Stop → View → Versioned Request → View → Type 0 };

    /// The counts of faults of the device and of the output.
    ghost Faults: { Type 0 };

    ghost failed: { D → ℕ → Faults };

    /// How they change where a request isn't answered whole.
    ghost counts: { Self.Stop → Faults → Faults → Type 0 };

    /// What the device is lent.
    ghost names: { D → List GName };

    /// Answers a request, and puts the frames of its replies.
    fn answer<W: Sink>(
        &mut self,
        alloc: Global,
        asked: &Versioned<Request<'_>>,
        out: &mut W,
        device: &mut D,
    ) -> Result<(), Self::Stop>
        requires { is_ready (seen self.old device.old (W.seen out.old).content) }
        ensures answered { Answers answers stops result asked.now
            (seen self.old device.old (W.seen out.old).content)
            (seen self.new device.new (W.seen out.new).content) }
        ensures ready { OnOk result
            (is_ready (seen self.new device.new (W.seen out.new).content)) }
        ensures same { names device.new ≡ names device.old }
        ensures counts { CountsAnswer counts result
            (failed device.old (W.seen out.old).faults)
            (failed device.new (W.seen out.new).faults) };
}
