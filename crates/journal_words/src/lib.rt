//! The words of GTIDs and sets in journals and bundles. Each has one spelling (docs/FORMATS.md, section 2).
//!
//! What a contract sees: a word is the list of its bytes. A word is read if and only if it is the one spelling of a source, a GTID or a set
//! (`source_word`, `gtid_word`, `set_word`). A set with too many sources is refused for them, whatever memory there is (`room`).
//!
//! Sources and GTIDs are parsed freely, written again and compared, so that the grammar of `gtid_text` is the only one. So are sets, but
//! most of them are read in one pass before (`one_pass`): what it accepts is proved to be the set that the grammar gives.
#![tactic(auto)]

mod gtids;
mod one_pass;

pub use gtids::{gtid_word, set_word, source_word, spans_word, write_spans};
