//! Laws of forms: to spell and to read are inverse, and each way of making a form of others keeps
//! this; and which bytes stand where. Each is the contract of a function that does nothing.

ghost use Rattle.iop_snapshot.specs.Laws.{ItemsAreLawful, BothIsLawful, SeenIsLawful, SeenTestedIsLawful, TestedIsLawful, PresentIsLawful, SeriesIsLawful, FollowingIsSeries, NoneBeginsAnother, WholeIsExact, LawfulFormsAgree};
ghost use Rattle.iop_snapshot.specs.Layout.{ItemsAreLaid, ListsBeginWithCount, RepeatedIsLawful};

/// Items, and so many bytes, are read as they were spelled.
pub fn items_are_lawful()
    ensures { ItemsAreLawful }
{}

/// A value and behind it another, whose form may depend on the first.
pub fn both_is_lawful<X, Y>()
    ensures { BothIsLawful X Y }
{}

/// A value that is seen as one of another type, and goes back.
pub fn seen_is_lawful<X, Y>()
    ensures { SeenIsLawful X Y }
{}

/// A value that passes a test, where such a one is seen as one of another type, and goes back.
pub fn seen_tested_is_lawful<X, Y>()
    ensures { SeenTestedIsLawful X Y }
{}

/// The values that pass a test.
pub fn tested_is_lawful<X>()
    ensures { TestedIsLawful X }
{}

/// A value that is there exactly where something else says so.
pub fn present_is_lawful<X>()
    ensures { PresentIsLawful X }
{}

/// A list, the forms of whose items may depend on the items before.
pub fn series_is_lawful<X>()
    ensures { SeriesIsLawful X }
{}

/// A list of one form whose items pass a test beside those before them.
pub fn following_is_series<X>()
    ensures { FollowingIsSeries X }
{}

/// No spelling is the front of another: the spelling of a part tells where it ends.
pub fn none_begins_another<X>()
    ensures { NoneBeginsAnother X }
{}

/// Bytes are read as a whole exactly where they are the spelling of a value that fits.
pub fn whole_is_exact<X>()
    ensures { WholeIsExact X }
{}

/// Lawful forms of one spelling, by which the same values fit, read the same.
pub fn lawful_forms_agree<X>()
    ensures { LawfulFormsAgree X }
{}

/// So many items of one form, without a count.
pub fn repeated_is_lawful<X>()
    ensures { RepeatedIsLawful X }
{}

/// An item takes as many bytes as its widths say, and holds its numbers one behind the other, the
/// lowest byte of each first.
pub fn items_are_laid()
    ensures { ItemsAreLaid }
{}

/// A list begins with the four bytes of its count, and its items follow.
pub fn lists_begin_with_count<X>()
    ensures { ListsBeginWithCount X }
{}
