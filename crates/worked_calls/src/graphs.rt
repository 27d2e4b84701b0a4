//! The dependency graph by the keys of transactions.

use crate::sources::first_entries;
use dependency_graph::Graph;
use rows::Transaction;
use std::alloc::Global;
use std::test::Fail;
use txn_journal::{Bundle, decode_bundle};
use write_set::list_keys;

/// Four transactions: of one key, of another, of both, and of a third.
const BOTH_KEYS: &str = "bundle 1
replica cccccccc-cccc-cccc-cccc-cccccccccccc
table t 1 pk 0
channel x
journal 1
previous -
txn aaaaaaaa-aaaa-aaaa-aaaa-aaaaaaaaaaaa:1
ins t 1
end
txn aaaaaaaa-aaaa-aaaa-aaaa-aaaaaaaaaaaa:2
ins t 2
end
txn aaaaaaaa-aaaa-aaaa-aaaa-aaaaaaaaaaaa:3
del t 1
del t 2
end
txn aaaaaaaa-aaaa-aaaa-aaaa-aaaaaaaaaaaa:4
ins t 3
end
close
done
";

/// Three transactions of one key.
const ONE_KEY: &str = "bundle 1
replica cccccccc-cccc-cccc-cccc-cccccccccccc
table t 1 pk 0
channel x
journal 1
previous -
txn aaaaaaaa-aaaa-aaaa-aaaa-aaaaaaaaaaaa:1
ins t 1
end
txn aaaaaaaa-aaaa-aaaa-aaaa-aaaaaaaaaaaa:2
del t 1
end
txn aaaaaaaa-aaaa-aaaa-aaaa-aaaaaaaaaaaa:3
ins t 1
end
close
done
";

/// Adds a node with the keys of a transaction. Whether it has this number.
fn adds(alloc: Global, graph: &mut Graph, bundle: &Bundle, txn: &Transaction, node: usize) -> bool {
    if graph.len() >= 4_294_967_294 {
        return false;
    }
    match list_keys(alloc, bundle.schema(), txn) {
        Ok(keys) => matches!(graph.add(keys), Ok(number) if number == node),
        Err(_) => false,
    }
}

/// Whether the transactions of a bundle's first journal are the nodes from 0 on of a graph that was empty.
fn adds_all(alloc: Global, graph: &mut Graph, text: &str) -> bool {
    let Ok(bundle) = decode_bundle(alloc, text.as_bytes()) else {
        return false;
    };
    let mut are_added = true;
    for (node, entry) in first_entries(&bundle).iter().enumerate() {
        are_added = are_added && adds(alloc, graph, &bundle, &entry.txn, node);
    }
    are_added
}

/// What is asked of a graph, or done to it.
#[derive(Clone, Copy)]
enum GraphCall {
    /// The blocker of a node is this.
    Blocker(usize, Option<usize>),
    /// The least unfinished ready node from there is this.
    NextReady(usize, Option<usize>),
    /// Whether a node is ready.
    IsReady(usize, bool),
    /// A node is finished.
    Finish(usize),
}

/// Whether it is answered so, of a node that is there.
fn is_so(graph: &mut Graph, asking: GraphCall) -> bool {
    match asking {
        GraphCall::Blocker(node, want) => node < graph.len() && graph.blocker(node) == want,
        GraphCall::NextReady(from, want) => graph.next_ready(from) == want,
        GraphCall::IsReady(node, want) => node < graph.len() && graph.is_ready(node) == want,
        GraphCall::Finish(node) => finishes(graph, node),
    }
}

/// Finishes a node, if it is there.
fn finishes(graph: &mut Graph, node: usize) -> bool {
    let is_there = node < graph.len();
    if is_there {
        graph.finish(node);
    }
    is_there
}

/// Whether all is answered so, in turn, where the nodes are a bundle's transactions.
fn are_so(alloc: Global, text: &str, askings: &[GraphCall]) -> bool {
    let mut graph = Graph::start(alloc);
    let mut are_so = adds_all(alloc, &mut graph, text);
    for asking in askings {
        are_so = is_so(&mut graph, *asking) && are_so;
    }
    are_so
}

/// A node of two keys waits for both earlier ones, the least first.
#[test]
fn a_node_of_two_keys(rt: HostRuntime) -> Result<(), Fail> {
    let askings = [
        GraphCall::Blocker(2, Some(0)),
        GraphCall::Finish(0),
        GraphCall::Blocker(2, Some(1)),
        GraphCall::NextReady(0, Some(1)),
        GraphCall::NextReady(2, Some(3)),
        GraphCall::Finish(1),
        GraphCall::NextReady(0, Some(2)),
    ];
    assert!(rt; are_so(rt.alloc(), BOTH_KEYS, &askings));
    Ok(())
}

/// A node waits for all earlier ones of its key, in whichever order they are finished.
#[test]
fn nodes_of_one_key(rt: HostRuntime) -> Result<(), Fail> {
    let askings = [
        GraphCall::Finish(1),
        GraphCall::IsReady(2, false),
        GraphCall::Blocker(2, Some(0)),
        GraphCall::Finish(0),
        GraphCall::IsReady(2, true),
        GraphCall::Blocker(2, None),
    ];
    assert!(rt; are_so(rt.alloc(), ONE_KEY, &askings));
    Ok(())
}
