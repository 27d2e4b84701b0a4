//! The fields of a TABLE_MAP's optional metadata.
ghost use Rattle.std.specs.Prelude.{◌≡◌, option_map};
ghost use Rattle.binlog_rows.specs.Options.{field_by, field_at, field_view, content_of};

use crate::numbers::{packed, split};

/// A field of the optional metadata, and what is behind it.
#[derive(Drop)]
struct OptionalField<'a> {
    kind: u8,
    content: &'a [u8],
    behind: &'a [u8],
}

/// The field of this kind whose length is at the front.
#[tactic(auto, unfolding(crate::specs::Options::field_by))]
fn field_by(kind: u8, bytes: &[u8]) -> Option<OptionalField<'_>>
    ensures { option_map field_view result ≡ field_by kind bytes.now }
{
    let Some((len, rest)) = packed(bytes) else {
        return None;
    };
    let Some((content, behind)) = split(len, rest) else {
        return None;
    };
    Some(OptionalField {
        kind,
        content,
        behind,
    })
}

/// The field at the front.
fn field_at(bytes: &[u8]) -> Option<OptionalField<'_>>
    ensures { option_map field_view result ≡ field_at bytes.now }
{
    let Some((kind, rest)) = bytes.split_first() else {
        return None;
    };
    field_by(*kind, rest)
}

/// The content of the field of this kind among the optional metadata.
pub(crate) fn content_in(kind: u8, bytes: &[u8]) -> Option<&[u8]>
    ensures { option_map (λ t. t.now) result ≡ content_of kind bytes.now }
{
    let mut rest = bytes;
    for count in 0..bytes.len() {
        let Some(field) = field_at(rest) else {
            return None;
        };
        if field.kind == kind {
            return Some(field.content);
        }
        rest = field.behind;
    }
    None
}
