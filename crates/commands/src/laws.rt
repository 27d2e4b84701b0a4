//! What follows of bundles from the contracts. Each function does nothing; its contract is a law.
ghost use Rattle.commands.specs.Exact.{AnswerAlike};

use audit::keep_rules;
use txn_journal::Bundle;
use world::equal_unions_equal_rows;

/// Bundles with equal tables, opening rows and opening sets, whose transactions are equal under equal GTIDs, and whose unions are equal: if
/// applying each results in rows, by whichever order, what is written is the same. Nothing is required of keys, sources or channels, nor of
/// the orders in which the journals have their transactions.
pub fn equal_unions_equal_answers(first: &Bundle, second: &Bundle)
    ensures { AnswerAlike first.now second.now }
{
    equal_unions_equal_rows();
    keep_rules(first.journals());
    keep_rules(second.journals());
    let _ = first.rows().schema();
}
