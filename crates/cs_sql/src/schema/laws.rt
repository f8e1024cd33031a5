//! The laws of the schema, each the contract of a function that does nothing.

ghost use Rattle.cs_sql.specs.schema.Judged.{JudgesOwn, OneJudgement};

/// A schema is judged in one way, and each of a store's as what it is.
pub fn judgements()
    ensures one { OneJudgement }
    ensures own { JudgesOwn }
{}
