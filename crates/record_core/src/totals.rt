ghost use Rattle.record_core.specs.TotalLaws.{TotalIsSum, TotalSet, TotalSetTwo, TotalSnoc, TotalAppend, TotalMap, TotalWithout, WithoutRemoves, TotalLe, TotalSame, TotalBounded, TotalMember, TotalTwoMembers, TotalByPlace, TotalPlus, TotalOfBelow};

/// What the sum over a list becomes where members change, come or go.
pub fn totals_change<T>()
    ensures set { TotalSet T }
    ensures set_two { TotalSetTwo T }
    ensures snoc { TotalSnoc T }
    ensures append { TotalAppend T }
    ensures without { TotalWithout T }
    ensures removes { WithoutRemoves T }
{}

/// What is true of each member, and so of the sum.
pub fn totals_compare<T>()
    ensures le { TotalLe T }
    ensures same { TotalSame T }
    ensures bounded { TotalBounded T }
    ensures member { TotalMember T }
    ensures two_members { TotalTwoMembers T }
{}

/// The sum over a list as other sums.
pub fn totals_join<T, U>()
    ensures sum { TotalIsSum T }
    ensures map { TotalMap T U }
    ensures place { TotalByPlace T }
    ensures plus { TotalPlus T }
    ensures table { TotalOfBelow T }
{}
