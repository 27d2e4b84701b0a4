//! Laws of logical timestamps.
ghost use Rattle.std.specs.Prelude.{◌≡◌, ◌≤◌, List, length};
ghost use Rattle.rows.specs.declared.schema.Table.{Table};
ghost use Rattle.journal.specs.declared.Entry.{Entry};
ghost use Rattle.logical_timestamps.specs.Timestamps.{last_committed, each_last_committed, IsOneMore};

/// A last_committed is that of an earlier entry, each entry has one, and one more entry changes no other.
pub fn last_committed_laws()
    ensures earlier { (schema : List Table) (earlier : List Entry) (e : Entry) → last_committed schema earlier e ≤ length earlier }
    ensures more { (schema : List Table) (earlier es : List Entry) (e : Entry) → IsOneMore schema earlier es e }
    ensures each { (schema : List Table) (earlier es : List Entry) → length (each_last_committed schema earlier es) ≡ length es }
{}
