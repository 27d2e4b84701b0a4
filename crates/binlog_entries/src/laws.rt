//! What lines mean is what their entries denote. Each law is the contract of a function that does nothing.
ghost use Rattle.std.specs.Prelude.{◌≡◌, ◌⊎◌, ◌++◌, ℕ, List, true};
ghost use Rattle.binlog_entries.specs.Bodies.{takes};
ghost use Rattle.binlog_entries.specs.declared.bodies.Body.{Body};
ghost use Rattle.binlog_entries.specs.declared.bodies.Body.TheVariants as bodies;
ghost use Rattle.binlog_entries.specs.declared.bodies.BodyKind.{BodyKind};
ghost use Rattle.binlog_entries.specs.declared.bodies.BodyKind.TheVariants as kinds;
ghost use Rattle.binlog_entries.specs.Stream.{Progress, feed_bytes};
ghost use Rattle.binlog_entries.specs.Meaning.{LinesMeanEntries};

/// If the lines of a whole log are taken, they mean what the entries denote, in order: nothing is dropped, doubled or moved.
pub fn lines_mean_entries()
    ensures { LinesMeanEntries }
{}

/// Rows are only in the bodies of rows events, and a statement holds what the session is set to and one of the words of transactions.
pub fn statements_hold_no_rows()
    ensures rows { (body : Body) → takes body kinds.Row ≡ true → (body ≡ bodies.Rows) ⊎ (body ≡ bodies.RowsDue) }
    ensures statements { (kind : BodyKind) → takes bodies.Query kind ≡ true → (kind ≡ kinds.Setting) ⊎ (kind ≡ kinds.Statement) }
{}

/// It makes no difference where a text is cut.
pub fn cut_anywhere()
    ensures { (p : Progress) (xs ys : List ℕ) → feed_bytes p (xs ++ ys) ≡ feed_bytes (feed_bytes p xs) ys }
{}
