//! What is written reads back, whatever the case of its letters and the blanks between its tokens.
//!
//! Each law is the contract of a function that does nothing.
ghost use Rattle.std.specs.Prelude.{◌≡◌, ℕ, List};
ghost use Rattle.gtid_text.specs.Canonical.{gtid_text, spans_text};
ghost use Rattle.gtid_text.specs.Grammar.{ParsesAs, ParsesAsSource, ParsesAsGtid};
ghost use Rattle.gtid_text.specs.Scan.{source_of};
ghost use Rattle.gtid_text.specs.Written.{IsSource, IsUsable, AreUsable, Tokens, source_tokens, gtid_tokens, spans_tokens, SameButCase, IsSpaced, text_of_tokens};
ghost use Rattle.gtid_text.specs.declared.Gtid.{Gtid};
ghost use Rattle.gtid_text.specs.declared.Span.{Span};

/// The case of letters makes no difference to a UUID.
pub fn case_is_free()
    ensures { (a : List ℕ) (b : List ℕ) → SameButCase a b → source_of a ≡ source_of b }
{}

/// Tokens with no blank between them are a text of these tokens.
pub fn blanks_may_be_left_out()
    ensures { (tokens : Tokens) → IsSpaced tokens (text_of_tokens tokens) }
{}

/// The tokens of a source parse as it.
pub fn source_reads_back()
    ensures { (id : ℕ) → IsSource id → (text : List ℕ) → IsSpaced (source_tokens id) text → ParsesAsSource text id }
{}

/// The tokens of a GTID parse as it, and joined they are its one text.
pub fn gtid_reads_back()
    ensures parses { (g : Gtid) → IsUsable g → (text : List ℕ) → IsSpaced (gtid_tokens g) text → ParsesAsGtid text g }
    ensures joins { (g : Gtid) → text_of_tokens (gtid_tokens g) ≡ gtid_text g }
{}

/// The tokens of intervals parse as them, and joined they are their one text.
pub fn spans_read_back()
    ensures parses { (s : List Span) → AreUsable s → (text : List ℕ) → IsSpaced (spans_tokens s) text → ParsesAs text s }
    ensures joins { (s : List Span) → text_of_tokens (spans_tokens s) ≡ spans_text s }
{}
