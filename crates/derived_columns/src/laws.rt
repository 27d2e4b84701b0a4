//! Laws of hidden columns. Each function's contract is a law, and its body is empty.
ghost use Rattle.derived_columns.specs.Laws.{HiddenValuesTellKeys, HiddenValuesTellRows, HiddenColumnsAreBehind, GtidsStay};

/// Two values of a column have one hidden value exactly if they are one value of the key: where the server says that they are equal.
pub fn hidden_values_tell_keys()
    ensures { HiddenValuesTellKeys }
{}

/// Two images have one hidden value of their rows exactly if they are equal.
pub fn hidden_values_tell_rows()
    ensures { HiddenValuesTellRows }
{}

/// What is derived begins with the image. What the table's nth hidden column holds is in the nth place behind.
pub fn hidden_columns_are_behind()
    ensures { HiddenColumnsAreBehind }
{}

/// What is derived from entries has their GTIDs, in their order.
pub fn gtids_stay()
    ensures { GtidsStay }
{}
