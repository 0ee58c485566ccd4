//! Laws of declarations (C89, 3.5). The functions here do nothing; their contracts are the laws.
#![tactic(auto)]

ghost use Rattle.c_grammar_laws.specs.DeclarationLaws.{GoodDeclarations, GoodParameters, GoodHeads, ExactValues, ExactTypes, ExactDeclarations, ExactParameters, ExactHeads};
ghost use Rattle.c_grammar_laws.specs.DeclarationRows.{DeclarationRows};

/// The readers of declarations, of parameters and of all declarations of a function take what is spelled, whatever stands behind it, refuse where
/// what stands before the offending token can be completed, and look at no token past the one at which they stop.
pub fn good_c_declarations()
    ensures declarations { GoodDeclarations }
    ensures parameters { GoodParameters }
    ensures heads { GoodHeads }
{}

/// The readers of values and of types give exactly what is spelled, and refuse exactly at the first token such that the tokens up to it begin none.
#[tactic(auto, using(crate::proofs::DeclarationExact::exact_values, crate::proofs::DeclarationExact::exact_types))]
pub fn exact_c_values()
    ensures values { ExactValues }
    ensures types { ExactTypes }
{}

/// The readers of a declaration, of parameters and of all declarations of a function do so too.
#[tactic(auto, using(crate::proofs::DeclarationExact::exact_declarations, crate::proofs::DeclarationExact::exact_parameters, crate::proofs::DeclarationExact::exact_heads))]
pub fn exact_c_declarations()
    ensures declarations { ExactDeclarations }
    ensures parameters { ExactParameters }
    ensures heads { ExactHeads }
{}

/// Tokens with the declarations that they spell, or with the offending token.
#[tactic(auto, using(crate::proofs::DeclarationRowLaws::declaration_rows))]
pub fn declarations_of_tokens()
    ensures { DeclarationRows }
{}
