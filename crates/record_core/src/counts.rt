ghost use Rattle.record_core.specs.CountLaws.{DroppedFirst, DroppedNone, DroppedOne, TotalDropped, PassingCons, PassingSnoc, PassingDropped, PassingKept, PassingSet, PassingSome, PassingOne, TimesSome, TimesEach};

/// What a list is without the first member that passes a test, and what its sum is then.
pub fn first_dropped<T>()
    ensures first { DroppedFirst T }
    ensures none { DroppedNone T }
    ensures one { DroppedOne T }
    ensures total { TotalDropped T }
{}

/// How many members pass a test after one came, went or was replaced.
pub fn counts_change<T>()
    ensures cons { PassingCons T }
    ensures snoc { PassingSnoc T }
    ensures dropped { PassingDropped T }
    ensures kept { PassingKept T }
    ensures set { PassingSet T }
{}

/// What a count says of the members.
pub fn counts_tell<T>()
    ensures some { PassingSome T }
    ensures one { PassingOne T }
    ensures times { TimesSome }
    ensures each { TimesEach }
{}
