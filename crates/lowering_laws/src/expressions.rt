//! The steps of an expression do what its valuing does, as the contract of a call that does nothing.

ghost use Rattle.lowering_laws.specs.ExpressionStatements.{EachExpressionFollows, OperandsFollow};

/// The steps of an expression, and of operands, from their start and from each place in their midst, come to the value that valuing
/// comes to, or to the same call; behind each answer they stand in their midst again. Nothing is said behind an act.
pub fn expressions_follow()
    ensures each { EachExpressionFollows }
    ensures operands { OperandsFollow }
{}
