ghost use Rattle.task_meaning.specs.AggregateLaws.{AggregatesBeginCounts, AggregatesNeedAllWorths, LastMembersCount, LastMembersGive, MembersAddCounts, MembersGiveWorth, MembersKeepRest, MembersLeftCount, MembersLeftGive};

/// An aggregate is worth 0, exactly where each member has a worth, and under way it gives what its
/// call gives.
pub fn aggregates_need_worths()
    ensures call { AggregatesNeedAllWorths }
    ensures under_way { MembersGiveWorth }
{}

/// An aggregate under way needs the worths of the members that are left, and counts one activation
/// for each of them.
pub fn members_left()
    ensures value { MembersLeftGive }
    ensures counts { MembersLeftCount }
{}

/// An aggregate goes on behind its next member, and ends where there is none.
pub fn aggregates_go_on()
    ensures value { MembersKeepRest }
    ensures counts { MembersAddCounts }
    ensures last_value { LastMembersGive }
    ensures last_counts { LastMembersCount }
{}

/// A frame at the line of an aggregate counts a task and an activation, and what is counted from
/// both frames after it.
pub fn aggregates_begin()
    ensures { AggregatesBeginCounts }
{}
