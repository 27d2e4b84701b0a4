//! Whether two texts weigh the same if and only if a server calls them equal.

use crate::drawn_pairs::DRAWN_PAIRS;
use crate::near_pairs::NEAR_PAIRS;
use collation_weights::weigh;
use collations::collation_named;
use std::alloc::Global;
use std::test::Fail;

/// Whether the server's answer for a pair is that of the weights: a collation, two texts as hexadecimal digits, and 1 where they are equal.
fn agrees(alloc: Global, line: &str) -> bool {
    let mut words = line.split(' ');
    let (Some(name), Some(first), Some(second), Some(answer)) = (
        words.next(),
        words.next(),
        words.next(),
        words.next(),
    ) else {
        return false;
    };
    let Some(collation) = collation_named(name.as_bytes()) else {
        return false;
    };
    let (Ok(first), Ok(second)) = (hex::decode(alloc, first), hex::decode(alloc, second)) else {
        return false;
    };
    let (Ok(Some(first)), Ok(Some(second))) = (
        weigh(alloc, collation, first.as_slice()),
        weigh(alloc, collation, second.as_slice()),
    ) else {
        return false;
    };
    (first.as_slice() == second.as_slice()) == (answer == "1")
}

/// How many pairs there are, and the first one on which the server and the weights differ.
fn first_difference(alloc: Global, pairs: &'static str) -> (usize, &'static str) {
    let mut count = 0usize;
    for line in pairs.lines() {
        if !agrees(alloc, line) {
            return (count, line);
        }
        count = count.wrapping_add(1);
    }
    (count, "")
}

#[test]
fn drawn_pairs_weigh_as_the_server_says(rt: HostRuntime) -> Result<(), Fail> {
    let alloc = rt.alloc();
    assert_eq!(rt; first_difference(alloc, DRAWN_PAIRS), (1500, ""));
    Ok(())
}

#[test]
fn near_pairs_weigh_as_the_server_says(rt: HostRuntime) -> Result<(), Fail> {
    let alloc = rt.alloc();
    assert_eq!(rt; first_difference(alloc, NEAR_PAIRS), (1600, ""));
    Ok(())
}
