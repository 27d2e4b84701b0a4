//! Collations, and the search for one.
ghost use Rattle.std.specs.Prelude.{◌≡◌};
ghost use Rattle.collations.specs.Finding.{collation_named, collation_numbered, current_name};

/// A collation of MySQL.
#[derive(Clone, Copy, Debug, PartialEq, Eq, Drop)]
pub enum Collation {
    AsciiGeneralCi,
    AsciiBin,
    Latin1SwedishCi,
    Latin1GeneralCi,
    Latin1GeneralCs,
    Latin1Bin,
    Utf8mb3GeneralCi,
    Utf8mb3UnicodeCi,
    Utf8mb3Bin,
    Utf8mb4GeneralCi,
    Utf8mb4UnicodeCi,
    Utf8mb4Unicode520Ci,
    Utf8mb4Bin,
    Utf8mb4_0900AiCi,
    Utf8mb4_0900AsCs,
    Utf8mb4_0900Bin,
}

static COLLATIONS: [Collation; 16] = [
    Collation::AsciiGeneralCi,
    Collation::AsciiBin,
    Collation::Latin1SwedishCi,
    Collation::Latin1GeneralCi,
    Collation::Latin1GeneralCs,
    Collation::Latin1Bin,
    Collation::Utf8mb3GeneralCi,
    Collation::Utf8mb3UnicodeCi,
    Collation::Utf8mb3Bin,
    Collation::Utf8mb4GeneralCi,
    Collation::Utf8mb4UnicodeCi,
    Collation::Utf8mb4Unicode520Ci,
    Collation::Utf8mb4Bin,
    Collation::Utf8mb4_0900AiCi,
    Collation::Utf8mb4_0900AsCs,
    Collation::Utf8mb4_0900Bin,
];

impl Collation {
    ghost use Rattle.collations.specs.Names.{name_of, number_of};

    /// Its name on a server of today.
    pub fn name(self) -> &'static str
        ensures { result.now ≡ name_of self }
    {
        match self {
            Collation::AsciiGeneralCi => "ascii_general_ci",
            Collation::AsciiBin => "ascii_bin",
            Collation::Latin1SwedishCi => "latin1_swedish_ci",
            Collation::Latin1GeneralCi => "latin1_general_ci",
            Collation::Latin1GeneralCs => "latin1_general_cs",
            Collation::Latin1Bin => "latin1_bin",
            Collation::Utf8mb3GeneralCi => "utf8mb3_general_ci",
            Collation::Utf8mb3UnicodeCi => "utf8mb3_unicode_ci",
            Collation::Utf8mb3Bin => "utf8mb3_bin",
            Collation::Utf8mb4GeneralCi => "utf8mb4_general_ci",
            Collation::Utf8mb4UnicodeCi => "utf8mb4_unicode_ci",
            Collation::Utf8mb4Unicode520Ci => "utf8mb4_unicode_520_ci",
            Collation::Utf8mb4Bin => "utf8mb4_bin",
            Collation::Utf8mb4_0900AiCi => "utf8mb4_0900_ai_ci",
            Collation::Utf8mb4_0900AsCs => "utf8mb4_0900_as_cs",
            Collation::Utf8mb4_0900Bin => "utf8mb4_0900_bin",
        }
    }

    /// Its number.
    pub fn number(self) -> u64
        ensures { result ≡ number_of self }
    {
        match self {
            Collation::AsciiGeneralCi => 11,
            Collation::AsciiBin => 65,
            Collation::Latin1SwedishCi => 8,
            Collation::Latin1GeneralCi => 48,
            Collation::Latin1GeneralCs => 49,
            Collation::Latin1Bin => 47,
            Collation::Utf8mb3GeneralCi => 33,
            Collation::Utf8mb3UnicodeCi => 192,
            Collation::Utf8mb3Bin => 83,
            Collation::Utf8mb4GeneralCi => 45,
            Collation::Utf8mb4UnicodeCi => 224,
            Collation::Utf8mb4Unicode520Ci => 246,
            Collation::Utf8mb4Bin => 46,
            Collation::Utf8mb4_0900AiCi => 255,
            Collation::Utf8mb4_0900AsCs => 278,
            Collation::Utf8mb4_0900Bin => 309,
        }
    }
}

/// The name that today's servers have for what older ones call so.
fn current_name(name: &[u8]) -> &[u8]
    ensures { result.now ≡ current_name name.now }
{
    if name == b"utf8_general_ci".as_slice() {
        b"utf8mb3_general_ci"
    } else if name == b"utf8_unicode_ci".as_slice() {
        b"utf8mb3_unicode_ci"
    } else if name == b"utf8_bin".as_slice() {
        b"utf8mb3_bin"
    } else {
        name
    }
}

/// The collation of a name, be it today's or that of an older server.
#[tactic(auto, unfolding(crate::specs::Finding::collation_named))]
pub fn collation_named(name: &[u8]) -> Option<Collation>
    ensures { result ≡ collation_named name.now }
{
    let name = current_name(name);
    COLLATIONS
        .iter()
        .copied()
        .find(|c| c.name().as_bytes() == name)
}

/// The collation of a number.
#[tactic(auto, unfolding(crate::specs::Finding::collation_numbered))]
pub fn collation_numbered(number: u64) -> Option<Collation>
    ensures { result ≡ collation_numbered number }
{
    COLLATIONS.iter().copied().find(|c| c.number() == number)
}
