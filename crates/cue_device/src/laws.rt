//! Laws of a device over all that it hears and all that its machine reports, with any restarts between, each the
//! contract of a function that does nothing.
ghost use Rattle.cue_device.specs.Copies.{DoneAnswers, FailedAnswers, LateCopiesFailNothing, LetGoAnswers};
ghost use Rattle.cue_device.specs.Copies.{ReadyAnswers};
ghost use Rattle.cue_device.specs.Carrying.{CarriesOut};
ghost use Rattle.cue_device.specs.Laws.{MovesAfterStandingBy, MovesOnce, NeverGivesUpAfterMoving};
ghost use Rattle.cue_device.specs.Laws.{NeverMovesAfterGivingUp, NumbersRise, OneAtATime, PreparesOnce};

/// It moves at most once for each number, whatever copies come and however often it restarts.
pub fn moves_once()
    ensures { MovesOnce }
{}

/// It never both moves and gives up for one number.
pub fn never_both()
    ensures moving { NeverMovesAfterGivingUp }
    ensures giving_up { NeverGivesUpAfterMoving }
{}

/// It moves only for a number for which it answered before that it stands by.
pub fn moves_after_standing_by()
    ensures { MovesAfterStandingBy }
{}

/// Its machine is ordered nothing before it reported the end of the last order; only a preparation gives way to giving
/// up.
pub fn one_at_a_time()
    ensures { OneAtATime }
{}

/// The numbers of orders never fall, over restarts too.
pub fn numbers_rise()
    ensures { NumbersRise }
{}

/// It prepares for a number only if that is above the number of each order before.
pub fn prepares_once()
    ensures { PreparesOnce }
{}

/// It answers every copy: once it is ready, done, let go or failed, each further copy of that order has its answer.
pub fn answers_each_copy()
    ensures ready { ReadyAnswers }
    ensures done { DoneAnswers }
    ensures let_go { LetGoAnswers }
    ensures failed { FailedAnswers }
{}

/// Once it moves, no copy of an order of the attempt makes it abort, however late it comes; nor does anything else that
/// may happen to a device that did all it was ordered, however often.
pub fn late_copies_fail_nothing()
    ensures each { LateCopiesFailNothing }
    ensures ever { CarriesOut }
{}
