//! Laws of journals' texts.
ghost use Rattle.std.specs.Prelude.{◌≡◌, ℕ, List, None, Some};
ghost use Rattle.rows.specs.declared.limits.Limits.TheVariants.{Narrow};
ghost use Rattle.rows.specs.declared.schema.Table.{Table};
ghost use Rattle.journal.specs.Journals.{JournalValue};
ghost use Rattle.txn_journal.specs.Reading.{Stamped, stamped_of, without_entries, behind_entries, closing, WrittenJournal, IsTextOf, JournalProgress, HasBegun, FeedsBehind, EndsBehind};
ghost use Rattle.txn_journal.specs.Spelling.{IsWritten, WritesAs, Writes};
ghost use Rattle.txn_journal.specs.Timestamped.{with_timestamps, HasText, IsReadBack};
ghost use Rattle.txn_journal.specs.declared.lines.Version.{Version};
ghost use Rattle.txn_journal.specs.declared.lines.Due.TheVariants.{Only};
ghost use Rattle.txn_journal.specs.declared.lines.Version.TheVariants.{One, Two};
ghost use Rattle.txn_journal.specs.Widened.{WidensByThree, IsReadWidened};
ghost use Rattle.txn_journal.specs.BundleStates.{BundleValue};
ghost use Rattle.txn_journal.specs.BundleReading.{IsReadAs};
ghost use Rattle.txn_journal.specs.BundleText.{WritesBundleBy, WritesBundle, spelling_by, UpgradeHasText};
ghost use Rattle.txn_journal.specs.RowOrders.{OpensInListedOrder, TextsDifferInOrder};

/// A journal has one text in version 1, and in each version one with its numbers; and a text is that of one journal at most, with its version
/// and numbers.
pub fn one_spelling()
    ensures one { (j : JournalValue) (ks ls a b : List ℕ) → WritesAs One ks a j → WritesAs One ls b j → a ≡ b }
    ensures each { (v : Version) (j : JournalValue) (ls a b : List ℕ) → WritesAs v ls a j → WritesAs v ls b j → a ≡ b }
    ensures journal { (bytes : List ℕ) (i j : JournalValue) → Writes bytes i → Writes bytes j → i ≡ j }
    ensures whole { (bytes : List ℕ) (v w : WrittenJournal) → IsTextOf bytes v → IsTextOf bytes w → v ≡ w }
{}

/// Entries that were taken are those that would have come first.
pub fn taken_in_front()
    ensures taken { (p : JournalProgress) → behind_entries (stamped_of p) (without_entries p) ≡ p }
    ensures feed_bytes { (front : Stamped) (p : JournalProgress) (bytes : List ℕ) → HasBegun p → FeedsBehind front p bytes }
    ensures closing { EndsBehind }
{}

/// A text is that of one bundle at most, and two texts of a bundle by one version differ in the order of its `row` lines at most.
pub fn one_bundle()
    ensures bundle { (bytes : List ℕ) (a b : BundleValue) → WritesBundle bytes a → WritesBundle bytes b → a ≡ b }
    ensures text { TextsDifferInOrder }
{}

/// Rows put in listed order give the same rows.
pub fn rows_in_listed_order()
    ensures { OpensInListedOrder }
{}

/// A bundle of version 1 has a text by version 2, which is read as the same bundle.
pub fn upgrade_keeps_bundle()
    ensures text { UpgradeHasText }
    ensures read { (bytes : List ℕ) (b : BundleValue) → WritesBundleBy (Only One) bytes b → IsReadAs (spelling_by Two b) b }
{}

/// What version 3 writes of a bundle of version 1 or 2 is a text of that bundle with the widest limits, and is read as it.
pub fn version_three_widens_bundle()
    ensures text { WidensByThree }
    ensures read { IsReadWidened }
{}

/// What `encode_v2` writes of a journal over these tables, `decode_v2` reads as that journal with the last_committed that its keys give.
pub fn timestamped_read_back()
    ensures text { (tables : List Table) (j : JournalValue) → IsWritten Narrow j → HasText (with_timestamps tables j) }
    ensures read { (tables : List Table) (j : JournalValue) → IsWritten Narrow j → IsReadBack (with_timestamps tables j) }
{}
