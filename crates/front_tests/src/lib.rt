//! Tests alone, of what reads FORTRAN files: cards, the places of tokens, expressions, files with those that they include, and pieces.
#![tactic(auto)]

#[cfg(test)]
mod included_files;
#[cfg(test)]
mod longest_expressions;
#[cfg(test)]
mod pieces_of_files;
#[cfg(test)]
mod places_of_tokens;
#[cfg(test)]
mod statements_of_cards;
