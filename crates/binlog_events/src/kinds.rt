//! The words of the kinds of events.
ghost use Rattle.std.specs.Prelude.{◌≡◌, ◌++◌, OnOk};
ghost use Rattle.binlog_events.specs.Kinds.{early_word, middle_word, late_word, kind_word, kind_text};

use crate::text::{put, put_number};
use std::alloc::AllocError;

/// The words of the kinds up to 18.
#[tactic(auto, unfolding(crate::specs::Kinds::early_word))]
fn early_word(kind: u8) -> &'static str
    ensures { result.now ≡ early_word kind }
{
    match kind {
        2 => "query",
        3 => "stop",
        4 => "rotate",
        5 => "intvar",
        13 => "rand",
        14 => "user-var",
        15 => "format",
        16 => "xid",
        17 => "begin-load-query",
        18 => "execute-load-query",
        _ => "",
    }
}

/// The words of the kinds from 19 to 29.
#[tactic(auto, unfolding(crate::specs::Kinds::middle_word))]
fn middle_word(kind: u8) -> &'static str
    ensures { result.now ≡ middle_word kind }
{
    match kind {
        19 => "table-map",
        20 => "old-write-rows",
        21 => "old-update-rows",
        22 => "old-delete-rows",
        23 => "write-rows-v1",
        24 => "update-rows-v1",
        25 => "delete-rows-v1",
        26 => "incident",
        27 => "heartbeat",
        28 => "ignorable",
        29 => "rows-query",
        _ => "",
    }
}

/// The words of the kinds from 30 on.
#[tactic(auto, unfolding(crate::specs::Kinds::late_word))]
fn late_word(kind: u8) -> &'static str
    ensures { result.now ≡ late_word kind }
{
    match kind {
        30 => "write-rows",
        31 => "update-rows",
        32 => "delete-rows",
        33 => "gtid",
        34 => "anonymous-gtid",
        35 => "previous-gtids",
        36 => "transaction-context",
        37 => "view-change",
        38 => "xa-prepare",
        39 => "partial-update-rows",
        40 => "transaction-payload",
        41 => "heartbeat-v2",
        42 => "tagged-gtid",
        _ => "",
    }
}

/// The word of a kind, empty if it has none.
fn kind_word(kind: u8) -> &'static str
    ensures { result.now ≡ kind_word kind }
{
    if kind < 19 {
        early_word(kind)
    } else if kind < 30 {
        middle_word(kind)
    } else {
        late_word(kind)
    }
}

/// Appends the word of a kind, or its number.
pub(crate) fn put_kind(out: &mut Vec<u8>, kind: u8) -> Result<(), AllocError>
    ensures { OnOk result (out.new.items ≡ out.old.items ++ kind_text kind) }
{
    let word = kind_word(kind);
    if word.is_empty() {
        put(out, "kind-")?;
        put_number(out, kind as u64)
    } else {
        put(out, word)
    }
}
