//! The words that a header may have.

ghost use Rattle.std.specs.Prelude.{◌≡◌};
ghost use Rattle.std.specs.Str.{bytes_eq};
ghost use Rattle.tspinst.specs.Keywords.{keyword_of, weight_type_of, format_of};

use distx::Kind;

/// What a line outside a section begins with, in the order of the table in `specs/`.
#[derive(Clone, Copy, Debug, PartialEq, Eq, Drop)]
pub enum Keyword {
    Name,
    Comment,
    Type,
    Dimension,
    EdgeWeightType,
    EdgeWeightFormat,
    NodeCoordType,
    DisplayDataType,
    NodeCoordSection,
    EdgeWeightSection,
    DisplayDataSection,
    FixedEdgesSection,
    Eof,
}

/// Where distances come from.
#[derive(Clone, Copy, Debug, PartialEq, Eq, Drop)]
pub enum WeightType {
    Points(Kind),
    Explicit,
}

/// Which pairs a section of weights lists, row by row.
///
/// A column format lists the pairs of a row format: columns of the lower triangle are rows of the upper one.
#[derive(Clone, Copy, Debug, PartialEq, Eq, Drop)]
pub enum Format {
    Function,
    Full,
    Upper,
    Lower,
    UpperDiagonal,
    LowerDiagonal,
}

/// Whether a word is this name.
pub fn is(word: &[u8], name: &str) -> bool
    ensures { result ≡ bytes_eq word.now name.now }
{
    word == name.as_bytes()
}

/// The keyword that a word is, letter by letter.
pub fn find_keyword(word: &[u8]) -> Option<Keyword>
    ensures { result ≡ keyword_of word.now }
{
    if is(word, "NAME") {
        Some(Keyword::Name)
    } else if is(word, "COMMENT") {
        Some(Keyword::Comment)
    } else if is(word, "TYPE") {
        Some(Keyword::Type)
    } else if is(word, "DIMENSION") {
        Some(Keyword::Dimension)
    } else if is(word, "EDGE_WEIGHT_TYPE") {
        Some(Keyword::EdgeWeightType)
    } else if is(word, "EDGE_WEIGHT_FORMAT") {
        Some(Keyword::EdgeWeightFormat)
    } else if is(word, "NODE_COORD_TYPE") {
        Some(Keyword::NodeCoordType)
    } else if is(word, "DISPLAY_DATA_TYPE") {
        Some(Keyword::DisplayDataType)
    } else if is(word, "NODE_COORD_SECTION") {
        Some(Keyword::NodeCoordSection)
    } else if is(word, "EDGE_WEIGHT_SECTION") {
        Some(Keyword::EdgeWeightSection)
    } else if is(word, "DISPLAY_DATA_SECTION") {
        Some(Keyword::DisplayDataSection)
    } else if is(word, "FIXED_EDGES_SECTION") {
        Some(Keyword::FixedEdgesSection)
    } else if is(word, "EOF") {
        Some(Keyword::Eof)
    } else {
        None
    }
}

/// The weight type that a word names.
pub fn find_weight_type(word: &[u8]) -> Option<WeightType>
    ensures { result ≡ weight_type_of word.now }
{
    if is(word, "EUC_2D") {
        Some(WeightType::Points(Kind::Euc))
    } else if is(word, "CEIL_2D") {
        Some(WeightType::Points(Kind::Ceil))
    } else if is(word, "ATT") {
        Some(WeightType::Points(Kind::Att))
    } else if is(word, "MAN_2D") {
        Some(WeightType::Points(Kind::Man))
    } else if is(word, "MAX_2D") {
        Some(WeightType::Points(Kind::Max))
    } else if is(word, "EXPLICIT") {
        Some(WeightType::Explicit)
    } else {
        None
    }
}

/// The format that a word names.
pub fn find_format(word: &[u8]) -> Option<Format>
    ensures { result ≡ format_of word.now }
{
    if is(word, "FUNCTION") {
        Some(Format::Function)
    } else if is(word, "FULL_MATRIX") {
        Some(Format::Full)
    } else if is(word, "UPPER_ROW") {
        Some(Format::Upper)
    } else if is(word, "LOWER_COL") {
        Some(Format::Upper)
    } else if is(word, "LOWER_ROW") {
        Some(Format::Lower)
    } else if is(word, "UPPER_COL") {
        Some(Format::Lower)
    } else if is(word, "UPPER_DIAG_ROW") {
        Some(Format::UpperDiagonal)
    } else if is(word, "LOWER_DIAG_COL") {
        Some(Format::UpperDiagonal)
    } else if is(word, "LOWER_DIAG_ROW") {
        Some(Format::LowerDiagonal)
    } else if is(word, "UPPER_DIAG_COL") {
        Some(Format::LowerDiagonal)
    } else {
        None
    }
}
