//! The lines of a journal: which word is due where.
ghost use Rattle.std.specs.Prelude.{◌≡◌};
ghost use Rattle.txn_journal.specs.Lines.{keyword_of};
ghost use Rattle.txn_journal.specs.Versions.{limits_of, has_log_places};

use rows::Limits;

/// A version of the format.
#[derive(Clone, Copy, Debug, PartialEq, Eq)]
pub enum Version {
    One,
    Two,
    Three,
}

impl Version {
    /// The limits of its texts.
    pub fn limits(self) -> Limits
        ensures { result ≡ limits_of self }
    {
        match self {
            Version::One | Version::Two => Limits::Narrow,
            Version::Three => Limits::Wide,
        }
    }

    /// Whether its texts may have places of entries.
    pub fn has_places(self) -> bool
        ensures { result ≡ has_log_places self }
    {
        self == Version::Three
    }
}

/// Which versions are due.
#[derive(Clone, Copy, Debug, PartialEq, Eq)]
pub enum Due {
    Any,
    Only(Version),
    /// Those before version 3.
    BeforeThree,
}

impl Due {
    ghost use Rattle.txn_journal.specs.Lines.{takes};

    /// Whether a version is one of these.
    pub fn takes(self, version: Version) -> bool
        ensures { result ≡ takes self version }
    {
        match (self, version) {
            (Due::Any, _) => true,
            (Due::Only(Version::One), Version::One) => true,
            (Due::Only(Version::Two), Version::Two) => true,
            (Due::Only(Version::Three), Version::Three) => true,
            (Due::Only(_), _) => false,
            (Due::BeforeThree, Version::Three) => false,
            (Due::BeforeThree, _) => true,
        }
    }
}

/// Where in a journal the next line is.
#[derive(Clone, Copy, Debug, PartialEq, Eq)]
pub enum LinePlace {
    Header,
    Previous,
    Between,
    Within,
    Ended,
}

/// The first word of a line.
#[derive(Clone, Copy, Debug, PartialEq, Eq)]
pub enum Keyword {
    Journal,
    Previous,
    Txn,
    Ins,
    Upd,
    Del,
    End,
    Close,
}

/// The keyword that a word is.
pub fn keyword_at(word: &[u8]) -> Option<Keyword>
    ensures { result ≡ keyword_of word.now }
{
    if word == b"journal".as_slice() {
        Some(Keyword::Journal)
    } else if word == b"previous".as_slice() {
        Some(Keyword::Previous)
    } else if word == b"txn".as_slice() {
        Some(Keyword::Txn)
    } else if word == b"ins".as_slice() {
        Some(Keyword::Ins)
    } else if word == b"upd".as_slice() {
        Some(Keyword::Upd)
    } else if word == b"del".as_slice() {
        Some(Keyword::Del)
    } else if word == b"end".as_slice() {
        Some(Keyword::End)
    } else if word == b"close".as_slice() {
        Some(Keyword::Close)
    } else {
        None
    }
}

impl LinePlace {
    ghost use Rattle.txn_journal.specs.Due.{is_due};
    ghost use Rattle.txn_journal.specs.Machine.{is_between};

    /// Whether it is between two entries, or before the first or behind the last.
    pub fn is_between(self) -> bool
        ensures { result ≡ is_between self }
    {
        self == LinePlace::Between
    }

    /// Whether a line of this keyword is allowed here.
    pub fn takes(self, keyword: Keyword) -> bool
        ensures { result ≡ is_due self keyword }
    {
        match self {
            LinePlace::Header => matches!(keyword, Keyword::Journal),
            LinePlace::Previous => matches!(keyword, Keyword::Previous),
            LinePlace::Between => matches!(keyword, Keyword::Txn | Keyword::Close),
            LinePlace::Within => matches!(
                keyword,
                Keyword::Ins | Keyword::Upd | Keyword::Del | Keyword::End
            ),
            LinePlace::Ended => false,
        }
    }
}
