//! What a script asks: one replica, or a network.
ghost use Rattle.std.specs.Prelude.{IfOk, IfErr};
ghost use Rattle.replica_script.specs.Networks.{IsLeftOf, IsStopOf, IsAnsweredBy};

use crate::answer::{Asking, Stop, answer};
use crate::network_answer::answer_network;
use crate::question::Asked;
use network::Network;
use replica_core::Core;
use std::alloc::Global;

/// One replica, or several that read one another's own journals.
#[derive(Drop)]
pub enum Replicas {
    One(Core),
    Network(Network),
}

/// An answer to a question. A question to a network is a bad line if there is one replica, and the other way round.
pub fn answer_asked(
    alloc: Global,
    replicas: &mut Replicas,
    asked: Asked,
    asking: Asking,
) -> Result<Vec<u8>, Stop>
    ensures answer { IfOk result (λ text. IsAnsweredBy replicas.old asked replicas.new text.items) }
    ensures stop { IfErr result (IsStopOf replicas.old asked) }
    ensures left { IfErr result (λ stop. IsLeftOf replicas.old asked replicas.new) }
{
    match replicas {
        Replicas::One(core) => match asked {
            Asked::Replica(question) => answer(alloc, core, question, asking),
            Asked::Network(_) => Err(Stop::BadLine),
        },
        Replicas::Network(network) => match asked {
            Asked::Network(question) => answer_network(alloc, network, question, asking),
            Asked::Replica(_) => Err(Stop::BadLine),
        },
    }
}
