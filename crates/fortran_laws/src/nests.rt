//! What is proved of the ranges of DO loops, as the contract of a call that does nothing.
#![tactic(auto)]

ghost use Rattle.fortran_laws.specs.NestStatements.{EachRangeIsOfALoop, InnermostEndFirst, NoneIsOpenAtFirst, OneNestInARange, OpenIsKnownBehind, OpenIsWithin, WithinIsOpen};

/// Which ranges are open at a statement: none at the first one; behind each statement those that were and do not end there, and behind a DO its
/// own; so exactly those in whose range it stands. In loops that are nested, what is open outside a range is the same at each of its statements
/// and at its DO, and those that end at a statement are the innermost.
pub fn nests_are_told()
    ensures first { NoneIsOpenAtFirst }
    ensures behind { OpenIsKnownBehind }
    ensures within { OpenIsWithin }
    ensures open_there { WithinIsOpen }
    ensures of_a_loop { EachRangeIsOfALoop }
    ensures one_nest { OneNestInARange }
    ensures innermost { InnermostEndFirst }
{}
