//! The table of the last places of GTIDs, and the node of a new place.
ghost use Rattle.std.specs.Prelude.{◌≡◌, ◌≢◌, ◌<◌, ◌++◌, [], ◌∷◌, cond, false, length, AllPairs, Some, None, OnOk, OnErr, IfOk, IfErr};
ghost use Rattle.gtid_set.specs.Full.{IsFullExactly};
ghost use Rattle.std.specs.FinSet as set;
ghost use Rattle.std.specs.HashMap.{IsUnchanged};
ghost use Rattle.gtid_text.specs.declared.Gtid.{Gtid as GtidValue};
ghost use Rattle.gtid_text.specs.Gtids.{same_gtid};
ghost use Rattle.dependency_graph.specs.Graphs.{unfinished};
ghost use Rattle.apply_channel.specs.Kept.{HasPlace, IsOpened, place_of};

use dependency_graph::Graph;
use gtid_set::{GtidSet, SetFault};
use gtid_text::Gtid;
use key_table::KeyTable;
use rows::Key;
use std::alloc::{AllocError, Global};
use std::mem;

/// The last place of a GTID.
pub(crate) fn last_place(places: &KeyTable<Gtid, Option<usize>>, gtid: &Gtid) -> Option<usize>
    ensures { result ≡ place_of places.now.entries gtid.now }
{
    match places.get(gtid) {
        Some(place) => *place,
        None => None,
    }
}

/// Ensures that the GTID has an entry; returns its last place.
fn open_entry(
    places: &mut KeyTable<Gtid, Option<usize>>,
    gtid: Gtid,
) -> Result<Option<usize>, AllocError>
    ensures ok { OnOk result (IsOpened gtid places.old.entries places.new.entries) }
    ensures place { IfOk result (λ place. place ≡ place_of places.old.entries gtid) }
    ensures err { OnErr result (IsUnchanged places.old places.new) }
{
    let at = places.open(gtid, None)?;
    Ok(*places.value_at(at))
}

/// The last place of a GTID, which then has an entry, unless the caller wants none.
pub(crate) fn open_unless(
    unless: bool,
    places: &mut KeyTable<Gtid, Option<usize>>,
    gtid: &Gtid,
) -> Result<Option<usize>, AllocError>
    ensures same { (g : GtidValue) → place_of places.new.entries g ≡ place_of places.old.entries g }
    ensures opened { OnOk result (unless ≡ false → HasPlace places.new.entries gtid.now) }
    ensures place { IfOk result (λ place. place ≡ place_of places.new.entries gtid.now) }
{
    if unless {
        return Ok(last_place(places, gtid));
    }
    match open_entry(places, *gtid) {
        Ok(place) => return Ok(place),
        Err(fault) => return Err(fault),
    }
}

/// Writes the last place of a GTID that has an entry.
pub(crate) fn put_place(places: &mut KeyTable<Gtid, Option<usize>>, gtid: &Gtid, place: usize)
    requires { HasPlace places.old.entries gtid.now }
    ensures { (g : GtidValue) → place_of places.new.entries g ≡ cond (same_gtid g gtid.now) (Some place) (place_of places.old.entries g) }
{
    places.replace(gtid, Some(place));
}

/// Removes the entry of a GTID, which then has no place.
fn drop_entry(places: &mut KeyTable<Gtid, Option<usize>>, gtid: &Gtid)
    ensures { (g : GtidValue) → place_of places.new.entries g ≡ cond (same_gtid g gtid.now) None (place_of places.old.entries g) }
{
    places.swap_remove(gtid);
}

/// The last place of a GTID is executed: the one before replaces it in the table, or the entry is removed.
pub(crate) fn take_place(
    places: &mut KeyTable<Gtid, Option<usize>>,
    gtid: &Gtid,
    before: Option<usize>,
)
    requires { HasPlace places.old.entries gtid.now }
    ensures { (g : GtidValue) → place_of places.new.entries g ≡ cond (same_gtid g gtid.now) before (place_of places.old.entries g) }
{
    match before {
        Some(place) => put_place(places, gtid, place),
        None => drop_entry(places, gtid),
    }
}

/// Adds a node with these keys to the graph and a GTID to the set, or leaves both as they are.
pub(crate) fn put_node(
    alloc: Global,
    graph: &mut Graph,
    received: &mut GtidSet,
    keys: Vec<Key>,
    gtid: Gtid,
) -> Result<(), SetFault>
    requires room { length graph.old < 4294967294 }
    requires distinct { AllPairs (λ a b. a ≢ b) keys.items }
    ensures graph { OnOk result (graph.new ≡ graph.old ++ unfinished keys.items ∷ []) }
    ensures received { OnOk result (received.new ≡ set.insert received.old gtid) }
    ensures fault { IsFullExactly result (set.insert received.old gtid) }
    ensures same_graph { OnErr result (graph.new ≡ graph.old) }
    ensures same_received { OnErr result (received.new ≡ received.old) }
{
    if !received.has_room_for(&gtid) {
        return Err(SetFault::SourcesFull);
    }
    let reserved = match mem::replace(graph, Graph::start(alloc)).reserve(keys) {
        Ok(reserved) => reserved,
        Err(same) => {
            *graph = same;
            return Err(SetFault::Memory);
        }
    };
    match received.add(gtid) {
        Ok(()) => {
            *graph = reserved.add();
            return Ok(());
        }
        Err(fault) => {
            *graph = reserved.cancel();
            return Err(fault);
        }
    }
}
