//! Runs of a network, with what they leave.
ghost use Rattle.std.specs.Prelude.{◌≡◌, ◌<◌, [], ◌∷◌, true, length, slice_get, None, IfOk, IfErr, IfSome, OnErr};
ghost use Rattle.network.specs.Machine as machine;
ghost use Rattle.network.specs.Machine.{is_numbered, AreNumbered, replies, after, answered_events};
ghost use Rattle.network.specs.Faults.{IsEventCause, IsFaultAt, HasRoomIn, HasRoomNext};
ghost use Rattle.network.specs.Exact.{LeavesExact};
ghost use Rattle.network.specs.Rings.{LeavesMerged};

use crate::event::{NetworkEvent, NetworkReply};
use crate::network::Network;
use gtid_set::SetFault;
use std::alloc::Global;

/// One event, as `Network::step` makes it. If the network was opened and has run, nodes with equal executed sets then hold equal rows; and
/// if each key had one writer at a time, what the nodes hold is merged. After an error nothing has changed.
pub fn step(
    network: &mut Network,
    alloc: Global,
    event: &NetworkEvent,
) -> Result<NetworkReply, SetFault>
    requires { is_numbered event.now ≡ true }
    ensures ok { IfOk result (λ r. (r, network.new) ≡ machine.step network.old event.now) }
    ensures merged { IfOk result (λ r. LeavesMerged network.old (event.now ∷ []) (r ∷ []) network.new) }
    ensures exact { IfOk result (λ r. LeavesExact network.old (event.now ∷ []) network.new) }
    ensures err { OnErr result (network.new ≡ network.old) }
    ensures fault { IfErr result (λ f. IsEventCause f network.old event.now) }
    ensures room { IfErr result (λ f. HasRoomIn f network.old event.now) }
{
    network.step(alloc, event)
}

/// Events in turn, as `Network::run` makes them: the replies up to the first error, and that error. If the network was opened and has run,
/// nodes with equal executed sets then hold equal rows; and if each key had one writer at a time, what the nodes hold is merged.
pub fn run(
    network: &mut Network,
    alloc: Global,
    events: &[NetworkEvent],
) -> (Vec<NetworkReply>, Option<SetFault>)
    requires { AreNumbered events.now }
    ensures replies { result.0.items ≡ replies network.old (answered_events result.0.items events.now) }
    ensures nodes { network.new ≡ after network.old (answered_events result.0.items events.now) }
    ensures merged { LeavesMerged network.old (answered_events result.0.items events.now) result.0.items network.new }
    ensures exact { LeavesExact network.old (answered_events result.0.items events.now) network.new }
    ensures whole { result.1 ≡ None → length result.0.items ≡ length events.now }
    ensures cut { IfSome result.1 (λ fault. length result.0.items < length events.now) }
    ensures fault { IfSome result.1 (λ f. IsFaultAt f network.new (slice_get events.now (length result.0.items))) }
    ensures room { IfSome result.1 (λ f. HasRoomNext f network.new (slice_get events.now (length result.0.items))) }
{
    network.run(alloc, events)
}
