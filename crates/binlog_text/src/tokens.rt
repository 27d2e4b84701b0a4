//! Parts of a line.
ghost use Rattle.std.specs.Prelude.{◌≡◌, option_map};
ghost use Rattle.binlog_text.specs.Tokens.{after_prefix, before, behind, cut_at};

/// What follows a prefix.
pub fn after_prefix<'a>(text: &'a [u8], front: &[u8]) -> Option<&'a [u8]>
    ensures { option_map (λ r. r.now) result ≡ after_prefix front.now text.now }
{
    text.strip_prefix(front)
}

/// What comes before the first of these bytes, and what comes after it.
pub fn cut_at(text: &[u8], at: u8) -> Option<(&[u8], &[u8])>
    ensures { option_map (λ r. (r.0.now, r.1.now)) result ≡ cut_at at text.now }
{
    for (i, b) in text.iter().enumerate() {
        if *b == at {
            return Some((&text[..i], &text[i + 1..]));
        }
    }
    None
}
