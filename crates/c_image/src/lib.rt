//! Where the storage of a FORTRAN run stands among the objects of a C run, as definitions: the world of the second layer of the
//! simulation, the addresses of places, the frames of functions, and the C expressions that stand for operators and elements.
#![tactic(auto)]
