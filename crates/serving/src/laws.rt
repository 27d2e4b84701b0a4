//! The law of bundles whose opening rows aren't known. The function's contract is the law, and its body is empty.
ghost use Rattle.serving.specs.Unknown.{KeysSettle};

/// Where the audit of keys reports Sound, an audit over any opening rows reports Sound, or that a transaction doesn't apply: so `sound if
/// rows` leaves nothing else open.
pub fn keys_settle()
    ensures { KeysSettle }
{}
