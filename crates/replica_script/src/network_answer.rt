//! Answers of a network, as lines.
ghost use Rattle.std.specs.Prelude.{◌≡◌, IfOk, IfErr};
ghost use Rattle.replica_script.specs.declared.question.NetworkQuestion.TheVariants as asked;
ghost use Rattle.replica_script.specs.Networks.{IsNetworkAnswer, IsNetworkLeft, IsNetworkLeftBy, IsNetworkStopAt, IsShownAt, NetworkAnswers};

use crate::answer::{Asking, Stop, answer_query, crowded_line, full_line};
use crate::question::{NetworkQuestion, Query};
use crate::reply::network_reply_text;
use gtid_set::SetFault;
use network::{Network, NetworkEvent};
use std::alloc::Global;

/// Makes an event of a network, once. If a set that it makes would have too many sources or intervals, that is the answer, and nothing has
/// changed.
pub fn answer_network_event(
    alloc: Global,
    network: &mut Network,
    event: &NetworkEvent,
) -> Result<Vec<u8>, Stop>
    ensures answer { IfOk result (λ text. IsNetworkAnswer network.old event.now network.new text.items) }
    ensures stop { IfErr result (IsNetworkStopAt (asked.Event event.now)) }
    ensures left { IfErr result (λ stop. IsNetworkLeft network.old event.now network.new) }
{
    if !event.is_numbered() {
        return Err(Stop::BadLine);
    }
    match network.step(alloc, event) {
        Ok(reply) => match network_reply_text(alloc, &reply) {
            Ok(text) => Ok(text.into_bytes()),
            Err(_) => Err(Stop::Memory),
        },
        Err(SetFault::SourcesFull) => Ok(full_line(alloc)?),
        Err(SetFault::PoolFull) => Ok(crowded_line(alloc)?),
        Err(SetFault::Memory) => Err(Stop::Memory),
    }
}

/// Shows what a query asks for of the replica of a node.
fn answer_at_node(
    alloc: Global,
    network: &Network,
    node: usize,
    query: Query,
    asking: Asking,
) -> Result<Vec<u8>, Stop>
    ensures shown { IfOk result (λ text. IsShownAt network.now node query text.items) }
    ensures stop { IfErr result (IsNetworkStopAt (asked.Query node query)) }
{
    match network.replica(node) {
        Some(core) => answer_query(alloc, core, query, asking),
        None => Ok(Vec::from_slice(alloc, b"NoNode\n")?),
    }
}

/// An answer to a question.
pub fn answer_network(
    alloc: Global,
    network: &mut Network,
    question: NetworkQuestion,
    asking: Asking,
) -> Result<Vec<u8>, Stop>
    ensures answer { IfOk result (λ text. NetworkAnswers network.old question network.new text.items) }
    ensures stop { IfErr result (IsNetworkStopAt question) }
    ensures left { IfErr result (λ stop. IsNetworkLeftBy network.old question network.new) }
{
    match question {
        NetworkQuestion::Event(event) => answer_network_event(alloc, network, &event),
        NetworkQuestion::Query(node, query) => {
            answer_at_node(alloc, network, node, query, asking)
        }
    }
}
