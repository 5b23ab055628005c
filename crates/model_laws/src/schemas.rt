//! The law of schemas: rows of a plan's nodes are tuples of the nodes' schemas.
ghost use Rattle.model_laws.specs.LawsOfFits.{OpsFit, PairsFit};
ghost use Rattle.model_laws.specs.LawsOfPlanFits.{PlansFit};

/// An operation over one list of rows, or over several of a union, that has a schema gives tuples
/// of that schema, where its rows are tuples of its input's schema.
pub fn ops_fit()
    ensures { OpsFit }
{}

/// An operation over two lists of rows that has a schema gives tuples of that schema, where its rows
/// are tuples of its inputs' schemas.
pub fn pairs_fit()
    ensures { PairsFit }
{}

/// A plan that keeps the rules gives, of inputs that are tuples of their sources' schemas, tuples of
/// its nodes' schemas, in the outer list and in each superstep, and of the result node's schema.
pub fn plans_fit()
    ensures { PlansFit }
{}
