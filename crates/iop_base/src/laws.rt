//! Facts about the definitions that no call computes. Each is the contract of a function that does
//! nothing.

ghost use Rattle.iop_base.specs.Laws.{BestIsTheFirstOfTheLeast, PlacesAreInside, CausesShow};

/// The best is the first in the list among those of the least number, and there is none only in an
/// empty list.
pub fn best_is_the_first_of_the_least()
    ensures { BestIsTheFirstOfTheLeast }
{}

/// A range that has a physical place lies wholly in RAM.
pub fn places_are_inside()
    ensures { PlacesAreInside }
{}

/// A count shows a fault exactly where it rose or stands at its last value.
pub fn causes_show()
    ensures { CausesShow }
{}
