//! What is in the bodies of events.
ghost use Rattle.std.specs.Prelude.{◌≡◌, ◌≤◌, option_map};
ghost use Rattle.binlog_events.specs.Bodies.{behind, behind_zero, query_text, mapped_names, mapped_database, mapped, mapped_table, rows_id};

use crate::numbers::{low_number, part, rest_of};

/// What is behind so many bytes.
#[tactic(auto, unfolding(crate::specs::Bodies::behind))]
pub(crate) fn behind(n: usize, body: &[u8]) -> Option<&[u8]>
    ensures { option_map (λ t. t.now) result ≡ behind n body.now }
{
    if body.len() < n {
        return None;
    }
    Some(rest_of(body, n))
}

/// What is behind so many bytes, of which the last one is 0.
#[tactic(auto, unfolding(crate::specs::Bodies::behind_zero))]
fn behind_zero(n: usize, body: &[u8]) -> Option<&[u8]>
    requires { 1 ≤ n }
    ensures { option_map (λ t. t.now) result ≡ behind_zero n body.now }
{
    if body.len() < n {
        return None;
    }
    if body[n - 1] == 0 {
        Some(rest_of(body, n))
    } else {
        None
    }
}

/// The statement of a QUERY, by the body. `None` where the body is not in that form.
#[tactic(auto, unfolding(crate::specs::Bodies::query_text))]
pub fn query_text(body: &[u8]) -> Option<&[u8]>
    ensures { option_map (λ t. t.now) result ≡ query_text body.now }
{
    if body.len() < 13 {
        return None;
    }
    let variables = u16::from_le_bytes([body[11], body[12]]);
    behind_zero(14 + (variables as usize + body[8] as usize), body)
}

/// A table of a TABLE_MAP.
#[derive(Drop)]
pub struct NamedTable<'a> {
    /// By which rows events name it.
    pub id: u64,
    pub database: &'a [u8],
    pub table: &'a [u8],
}

/// The table of a TABLE_MAP whose names have these lengths.
#[tactic(auto, unfolding(crate::specs::Bodies::mapped_names))]
fn mapped_names(database: usize, table: usize, body: &[u8]) -> Option<NamedTable<'_>>
    requires database { database ≤ 255 }
    requires table { table ≤ 255 }
    ensures { option_map mapped_table result ≡ mapped_names database table body.now }
{
    if body.len() < 12 + (database + table) {
        return None;
    }
    if body[9 + database] == 0 && body[11 + (database + table)] == 0 {
        Some(NamedTable {
            id: low_number(part(0, 6, body)),
            database: part(9, database, body),
            table: part(11 + database, table, body),
        })
    } else {
        None
    }
}

/// The table of a TABLE_MAP whose first name has this length.
#[tactic(auto, unfolding(crate::specs::Bodies::mapped_database))]
fn mapped_database(database: usize, body: &[u8]) -> Option<NamedTable<'_>>
    requires { database ≤ 255 }
    ensures { option_map mapped_table result ≡ mapped_database database body.now }
{
    if body.len() < 11 + database {
        return None;
    }
    mapped_names(database, body[10 + database] as usize, body)
}

/// The table of a TABLE_MAP, by the body. `None` where the body is not in that form.
#[tactic(auto, unfolding(crate::specs::Bodies::mapped))]
pub fn mapped(body: &[u8]) -> Option<NamedTable<'_>>
    ensures { option_map mapped_table result ≡ mapped body.now }
{
    if body.len() < 9 {
        return None;
    }
    mapped_database(body[8] as usize, body)
}

/// The id of the table of a rows event, by the body. `None` where the body is too short.
#[tactic(auto, unfolding(crate::specs::Bodies::rows_id))]
pub fn rows_id(body: &[u8]) -> Option<u64>
    ensures { result ≡ rows_id body.now }
{
    if body.len() < 8 {
        return None;
    }
    Some(low_number(part(0, 6, body)))
}
