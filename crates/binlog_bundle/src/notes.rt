//! What is noted of a bundle of logs.
ghost use Rattle.std.specs.Prelude.{◌≡◌, ◌++◌, OnOk, Some, slice_get};
ghost use Rattle.binlog_bundle.specs.Notes.{name_in, bytes_note, bytes_notes};

use crate::lines::item_at;
use row_images::cut;
use rows::Table;
use std::alloc::AllocError;

/// The name of a channel, by its line.
pub fn name_in(line: &[u8]) -> &[u8]
    ensures { result.now ≡ name_in line.now }
{
    match cut(line).1 {
        Some(text) => cut(text).0,
        None => b"".as_slice(),
    }
}

/// Notes a table whose keys the server doesn't compare by their bytes.
fn note_table(notes: &mut Vec<u8>, channel: &[u8], table: &Table) -> Result<(), AllocError>
    ensures { OnOk result (notes.new.items ≡ notes.old.items ++ bytes_note channel.now (Some table.now)) }
{
    notes.extend_from_slice(b"assume bytes ")?;
    notes.extend_from_slice(channel)?;
    notes.push(b' ')?;
    notes.extend_from_slice(table.name.as_str().as_bytes())?;
    notes.extend_from_slice(b": two values that the server calls equal may be two keys here\n")?;
    Ok(())
}

/// Notes the table at a place, whose keys the server doesn't compare by their bytes.
fn note_place(
    notes: &mut Vec<u8>,
    channel: &[u8],
    tables: &[Table],
    place: usize,
) -> Result<(), AllocError>
    ensures { OnOk result (notes.new.items ≡ notes.old.items ++ bytes_note channel.now (slice_get tables.now place)) }
{
    match item_at(tables, place) {
        Some(table) => note_table(notes, channel, table),
        None => Ok(()),
    }
}

/// Notes of a channel the tables at these places, whose keys the server doesn't compare by their bytes.
pub fn note_bytes(
    notes: &mut Vec<u8>,
    channel: &[u8],
    tables: &[Table],
    places: &[usize],
) -> Result<(), AllocError>
    ensures { OnOk result (notes.new.items ≡ notes.old.items ++ bytes_notes channel.now tables.now places.now) }
{
    for place in places {
        note_place(notes, channel, tables, *place)?;
    }
    Ok(())
}
