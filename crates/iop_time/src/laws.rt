//! Facts about the definitions that no call computes. Each is the contract of a function that does
//! nothing.

ghost use Rattle.iop_time.specs.Restoring.{TimersComeBack};
ghost use Rattle.iop_time.specs.Laws.{TimesAgree, DueIsNext, TakenIsNext, NextMomentIsLeast, DelaysLeaveRoom, NumbersRise, ResultsGoToTheirAlarm, EachCallLeaves};

/// Microseconds that become ticks and microseconds again are at most one fewer, and ticks that
/// become microseconds and ticks again at most 37.
pub fn times_agree()
    ensures { TimesAgree }
{}

/// Of all alarms and delays whose moment has come and is not `NEVER`, the one that is due has the
/// least moment, and the least number of that moment. None is due exactly where there is none.
pub fn due_is_next()
    ensures { DueIsNext }
{}

/// What is taken is the alarm or the delay that is due, and nothing is taken exactly where none is.
pub fn taken_is_next()
    ensures { TakenIsNext }
{}

/// The next moment is the least of all that are not `NEVER`, and there is none exactly where there
/// is no such moment.
pub fn next_moment_is_least()
    ensures { NextMomentIsLeast }
{}

/// Where no more threads live than delays can stand, there is room for the delay of one that has
/// none.
pub fn delays_leave_room()
    ensures { DelaysLeaveRoom }
{}

/// Every call but those that put back is a change of a clock: what holds of it stays, numbers rise,
/// and one that is no longer in use is never given again.
pub fn numbers_rise()
    ensures { NumbersRise }
{}

/// An alarm that was cancelled is not set again. Where it was cancelled and then set anew, it has
/// another number, and the result of the first one's handler changes nothing.
pub fn results_go_to_their_alarm()
    ensures { ResultsGoToTheirAlarm }
{}

/// A delay that is taken is gone, an alarm that is taken stands on. Where `OK` is answered, one
/// alarm more stands with the fields that were given, or none of the handler and argument stands.
/// An alarm that is set again comes so many ticks later, with all else as it was. All other alarms
/// and delays are as they were.
pub fn each_call_leaves()
    ensures { EachCallLeaves }
{}

/// All that stands in a clock is taken back by one without alarm and delay: its alarms and then its
/// delays, each in the order of their numbers, and then its next number. It is the same clock then.
pub fn timers_come_back()
    ensures { TimersComeBack }
{}
