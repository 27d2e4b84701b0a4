//! A replica that has received twenty empty transactions.
ghost use Rattle.std.specs.Prelude.{◌≡◌, true};
ghost use Rattle.replica_core.specs.Machine.{is_numbered};

use gtid_text::{Gtid, SourceId};
use journal::Entry;
use replica_core::{Core, Event};
use rows::{Changes, Limits, Name, Rows, Schema, Transaction};
use std::alloc::Global;
use std::test::Fail;

/// What the twenty transactions leave.
pub(crate) const TWENTY: &str = "executed 00000000-0000-0000-0000-000000000002:1-20\n";

/// One event. Its reply is dropped.
fn make(alloc: Global, core: &mut Core, event: &Event) -> Result<(), Fail>
    requires { is_numbered event.now ≡ true }
{
    drop(core.step(alloc, event)?);
    Ok(())
}

/// A channel of this name is opened and positioned.
fn open_channel(alloc: Global, core: &mut Core, name: &str) -> Result<(), Fail> {
    let name = Name::new(String::from_str(alloc, name)?)?;
    make(alloc, core, &Event::OpenChannel(name, false))?;
    make(alloc, core, &Event::Position(0))
}

/// An empty transaction of this number is received.
fn receive_empty(alloc: Global, core: &mut Core, number: u64) -> Result<(), Fail> {
    let source = SourceId::from_bits(2);
    let changes = Changes::new(Vec::new(alloc))?;
    let entry = Entry {
        gtid: Gtid { source, number },
        txn: Transaction { changes },
    };
    if !entry.is_writable(Limits::Wide) {
        return Err(Fail::from("not writable"));
    }
    make(alloc, core, &Event::Receive(0, entry))
}

fn receive_twenty(alloc: Global, core: &mut Core) -> Result<(), Fail> {
    open_channel(alloc, core, "c")?;
    for number in 1..21u64 {
        receive_empty(alloc, core, number)?;
    }
    Ok(())
}

/// A replica that has received twenty empty transactions on a channel.
pub(crate) fn core_with_twenty(alloc: Global) -> Result<Core, Fail> {
    let rows = Rows::open(alloc, Schema::empty(alloc));
    let mut core = Core::open(alloc, SourceId::from_bits(1), rows)?;
    match receive_twenty(alloc, &mut core) {
        Ok(()) => Ok(core),
        Err(fail) => Err(fail),
    }
}
