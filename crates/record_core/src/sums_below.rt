ghost use Rattle.record_core.specs.BelowLaws.{BelowSet, BelowSetTwo, BelowSame, BelowLe, BelowBounded, BelowMember, BelowRises, BelowAppend, BelowFront, BelowPlus};

/// What the sum over the numbers below a bound becomes where the function or the bound changes.
pub fn sums_below_change()
    ensures set { BelowSet }
    ensures set_two { BelowSetTwo }
    ensures rises { BelowRises }
    ensures append { BelowAppend }
    ensures front { BelowFront }
    ensures plus { BelowPlus }
{}

/// What is true at each number, and so of the sum.
pub fn sums_below_compare()
    ensures same { BelowSame }
    ensures le { BelowLe }
    ensures bounded { BelowBounded }
    ensures member { BelowMember }
{}
