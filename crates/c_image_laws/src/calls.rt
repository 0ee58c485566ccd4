//! The store stands through calls: while functions begin, values are passed and answers are given.
#![tactic(auto)]

ghost use Rattle.c_image_laws.specs.Statements.{PlacesPoint, ArraysPoint, ParametersArePassedOn, TextPartsPoint, ParametersReach, ParametersHold, TemporariesAreNew, PassedValuesAreSound, PassedValuesAreThere, FunctionsBegin, ResultsStand, ValuesArePassed, AnswersCut, NothingExtends, GrowthGoesOn, FramesExtend, FreeObjectsExtend, ArgumentsExtend, IdleBesideSequence, IdleBesideFrame, IdleBesideObject, IdleBefore, KnownLater, KnownKept};

/// A function begins whose frame was idle; its result gets a sequence of its own; a call passes values as sequences that may only be read; and
/// at an answer the store is cut and stands as before. Through all of them the store stands.
pub fn calls_stand()
    ensures begins { FunctionsBegin }
    ensures results { ResultsStand }
    ensures passed { ValuesArePassed }
    ensures cut { AnswersCut }
{}

/// What a call is given for a place points where the place stands: the address of its expression, an array, a parameter that is passed on, and a
/// part of a text.
pub fn arguments_point()
    ensures places { PlacesPoint }
    ensures arrays { ArraysPoint }
    ensures parameters { ParametersArePassedOn }
    ensures parts { TextPartsPoint }
{}

/// When a function begins, each parameter reaches the place that its argument points to, or holds the number that is passed by value, and its
/// temporaries are as they are made. The place of a value that is passed is sound, and stands in the object that holds the value.
pub fn parameters_are_bound()
    ensures reach { ParametersReach }
    ensures hold { ParametersHold }
    ensures temporaries { TemporariesAreNew }
    ensures sound { PassedValuesAreSound }
    ensures there { PassedValuesAreThere }
{}

/// The world only grows: by frames that were idle, objects that were free and sequences of arguments. What a function knows of its names stays
/// known, and what its temporaries keep is known too.
pub fn worlds_grow()
    ensures nothing { NothingExtends }
    ensures further { GrowthGoesOn }
    ensures frames { FramesExtend }
    ensures objects { FreeObjectsExtend }
    ensures arguments { ArgumentsExtend }
    ensures known_later { KnownLater }
    ensures known_kept { KnownKept }
{}

/// The frame of a function that is not active stays idle beside what a call makes, and was idle before the world grew.
pub fn frames_stay_idle()
    ensures sequence { IdleBesideSequence }
    ensures frame { IdleBesideFrame }
    ensures object { IdleBesideObject }
    ensures before { IdleBefore }
{}
