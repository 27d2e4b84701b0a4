//! Logs are not cut within. Each law is the contract of a function that does nothing.
ghost use Rattle.std.specs.Prelude.{◌≡◌, ℕ, List, false};
ghost use Rattle.binlog_text.specs.Lines.{Content, IsLine};
ghost use Rattle.binlog_bundle.specs.Lines.{is_own, HasNoOwn, IsSomeLog};

/// No line that mysqlbinlog prints is one of a bundle's own, so none is in a log.
pub fn logs_are_not_cut()
    ensures line { (l : Content) (line : List ℕ) → IsLine l line → is_own line ≡ false }
    ensures log { (text : List ℕ) → IsSomeLog text → HasNoOwn text }
{}
