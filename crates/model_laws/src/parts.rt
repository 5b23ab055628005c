//! The law of parts: what may be done part by part and piece by piece.
ghost use Rattle.model_laws.specs.LawsOfParts.{OpsSplit, PairsSplit, PiecesSplit, HashGivesParts};

/// An operation by keys over one list, over the rows of each part, one part after the other, is the
/// operation over all rows, for any function from keys to parts.
pub fn ops_split()
    ensures { OpsSplit }
{}

/// An operation by keys over two lists, over the rows of each part of both, one part after the
/// other, is the operation over all rows, for any function from keys to parts.
pub fn pairs_split()
    ensures { PairsSplit }
{}

/// An operation without a key over each piece of a list, one piece after the other, is the operation
/// over the list.
pub fn pieces_split()
    ensures { PiecesSplit }
{}

/// FNV-1a modulo the number of workers is such a function from keys to parts.
pub fn hash_gives_parts()
    ensures { HashGivesParts }
{}
