//! Statements that an operator may answer for.
ghost use Rattle.std.specs.Prelude.{◌≡◌, ◌≤◌, length};
ghost use Rattle.std.specs.Char.{is_ascii_whitespace};
ghost use Rattle.std.specs.List.{position_or_len};
ghost use Rattle.binlog_files.specs.Accepted.{from_word, word_of, behind_word, may_begin, alters, holds_no_rows, may_be_accepted_from, may_be_accepted};

/// The place of the first blank, or the length.
fn word_len(text: &[u8]) -> usize
    ensures place { result ≡ position_or_len is_ascii_whitespace text.now }
    ensures within { result ≤ length text.now }
{
    for (place, byte) in text.iter().enumerate() {
        if byte.is_ascii_whitespace() {
            return place;
        }
    }
    text.len()
}

/// The text without the blanks at its front.
fn from_word(text: &[u8]) -> &[u8]
    ensures { result.now ≡ from_word text.now }
{
    text.trim_ascii_start()
}

/// The bytes before the first blank.
fn word_of(text: &[u8]) -> &[u8]
    ensures { result.now ≡ word_of text.now }
{
    &text[..word_len(text)]
}

/// The bytes from the first blank on.
fn behind_word(text: &[u8]) -> &[u8]
    ensures { result.now ≡ behind_word text.now }
{
    &text[word_len(text)..]
}

fn may_begin(word: &[u8]) -> bool
    ensures { result ≡ may_begin word.now }
{
    word.eq_ignore_ascii_case(b"CREATE")
        || word.eq_ignore_ascii_case(b"GRANT")
        || word.eq_ignore_ascii_case(b"REVOKE")
        || word.eq_ignore_ascii_case(b"SET")
        || word.eq_ignore_ascii_case(b"ANALYZE")
        || word.eq_ignore_ascii_case(b"OPTIMIZE")
        || word.eq_ignore_ascii_case(b"REPAIR")
        || word.eq_ignore_ascii_case(b"CHECK")
        || word.eq_ignore_ascii_case(b"FLUSH")
}

fn alters(word: &[u8]) -> bool
    ensures { result ≡ alters word.now }
{
    word.eq_ignore_ascii_case(b"DROP")
        || word.eq_ignore_ascii_case(b"ALTER")
        || word.eq_ignore_ascii_case(b"RENAME")
}

fn holds_no_rows(word: &[u8]) -> bool
    ensures { result ≡ holds_no_rows word.now }
{
    word.eq_ignore_ascii_case(b"USER")
        || word.eq_ignore_ascii_case(b"ROLE")
        || word.eq_ignore_ascii_case(b"VIEW")
        || word.eq_ignore_ascii_case(b"FUNCTION")
        || word.eq_ignore_ascii_case(b"PROCEDURE")
        || word.eq_ignore_ascii_case(b"TRIGGER")
        || word.eq_ignore_ascii_case(b"EVENT")
}

fn may_be_accepted_from(text: &[u8]) -> bool
    ensures { result ≡ may_be_accepted_from text.now }
{
    let word = word_of(text);
    may_begin(word) || (alters(word) && holds_no_rows(word_of(from_word(behind_word(text)))))
}

/// Whether an operator may answer for a statement, by its first words: it makes something, gives or takes rights, sets or maintains; or it
/// alters or drops what holds no rows, and so no table, index or database.
#[tactic(auto, unfolding(crate::specs::Accepted::may_be_accepted))]
pub(crate) fn may_be_accepted(text: &[u8]) -> bool
    ensures { result ≡ may_be_accepted text.now }
{
    may_be_accepted_from(from_word(text))
}
