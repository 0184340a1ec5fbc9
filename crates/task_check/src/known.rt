ghost use Rattle.std.specs.Prelude.{◌≡◌, ℕ, ◌<◌, ◌≤◌, Bool, false, not, ◌&&◌, ◌||◌, cond, nat_eq, [], IfOk, IfSome, vec_len, slice_index_or};
ghost use Rattle.task_syntax.specs.Facts.{at_start};
ghost use Rattle.task_syntax.specs.Places.{Each};

use crate::set::VariableSet;
use std::alloc::{AllocError, Global};
use task_syntax::{Instr, State};

/// What is known of a kind's variables at a place: the held ones, the settled ones, and the members of each.
#[derive(Debug, Drop)]
pub struct Known {
    pub held: VariableSet,
    pub settled: VariableSet,
    pub members: Vec<VariableSet>,
}

impl Known {
    ghost use Rattle.task_check.specs.Known.{in_set, says, knows, AnswersBy, answer_after, copied_answer, renewed_answer, given_up_answer, will_settle, IsWithin};

    /// Nothing is held.
    pub fn nothing(alloc: Global, variables: usize) -> Result<Known, AllocError>
        ensures len { IfOk result (λ k. vec_len k.members ≡ variables) }
        ensures knows { IfOk result (AnswersBy variables (λ q. false)) }
    {
        let none = VariableSet::none();
        let members = vec![in alloc; none; variables]?;
        Ok(Known {
            held: none,
            settled: none,
            members,
        })
    }

    /// What a state declares.
    pub fn at_start(alloc: Global, variables: usize, state: &State) -> Result<Known, AllocError>
        requires holds { Each state.now.holds (λ x. x < 256) }
        requires settled { Each state.now.settled (λ x. x < 256) }
        ensures len { IfOk result (λ k. vec_len k.members ≡ variables) }
        ensures knows { IfOk result (AnswersBy variables (λ q. says q (at_start state.now))) }
    {
        let none = VariableSet::none();
        let members = vec![in alloc; none; variables]?;
        Ok(Known {
            held: VariableSet::of(state.holds.as_slice()),
            settled: VariableSet::of(state.settled.as_slice()),
            members,
        })
    }

    /// The same again.
    pub fn copied(&self, alloc: Global) -> Result<Known, AllocError>
        ensures len { IfOk result (λ k. vec_len k.members ≡ vec_len self.now.members) }
        ensures knows { IfOk result (λ k. (q : _) → knows q k ≡ knows q self.now) }
    {
        let members = Vec::from_slice(alloc, self.members.as_slice())?;
        Ok(Known {
            held: self.held,
            settled: self.settled,
            members,
        })
    }

    /// What is known both here and there.
    pub fn joined(self, other: &Known) -> Known
        requires { vec_len self.members ≡ vec_len other.now.members }
        ensures len { vec_len result.members ≡ vec_len self.members }
        ensures knows { AnswersBy (vec_len self.members)
            (λ q. knows q self && knows q other.now) result }
    {
        let Known {
            held,
            settled,
            members,
        } = self;
        Known {
            held: held.common(other.held),
            settled: settled.common(other.settled),
            members: joined_members(members, &other.members),
        }
    }

    /// A variable names something new, which is held.
    fn renewed(self, variable: u16, is_settled: bool, listed: VariableSet) -> Known
        requires within { variable < vec_len self.members }
        requires small { vec_len self.members < 256 }
        ensures len { vec_len result.members ≡ vec_len self.members }
        ensures knows { AnswersBy (vec_len self.members)
            (renewed_answer variable is_settled (λ y. in_set y listed) (λ q. knows q self)) result }
    {
        let Known {
            held,
            settled,
            members,
        } = self;
        Known {
            held: held.with(variable),
            settled: put(settled, variable, is_settled),
            members: relisted(members, variable, listed.without(variable)),
        }
    }

    /// A variable is given up.
    fn given_up(self, variable: u16) -> Known
        requires within { variable < vec_len self.members }
        requires small { vec_len self.members < 256 }
        ensures len { vec_len result.members ≡ vec_len self.members }
        ensures knows { AnswersBy (vec_len self.members)
            (given_up_answer variable (λ q. knows q self)) result }
    {
        let Known {
            held,
            settled,
            members,
        } = self;
        Known {
            held: held.without(variable),
            settled: settled.without(variable),
            members: relisted(members, variable, VariableSet::none()),
        }
    }

    /// What is known behind an instruction.
    pub fn after(self, instr: &Instr) -> Known
        requires within { IsWithin (vec_len self.members) instr.now }
        requires small { vec_len self.members < 256 }
        ensures len { vec_len result.members ≡ vec_len self.members }
        ensures knows { AnswersBy (vec_len self.members)
            (answer_after instr.now (λ q. knows q self)) result }
    {
        match instr {
            Instr::Spawn { to, .. } => self.renewed(*to, false, VariableSet::none()),
            Instr::All { to, members, .. } => {
                self.renewed(*to, false, VariableSet::of(members.as_slice()))
            }
            Instr::Copy { to, of } => self.copied_to(*to, *of),
            Instr::Drop { future } => self.given_up(*future),
            _ => self,
        }
    }

    /// A variable names what another one names.
    fn copied_to(self, to: u16, of: u16) -> Known
        requires within { (to < vec_len self.members) × (of < vec_len self.members) }
        requires small { vec_len self.members < 256 }
        ensures len { vec_len result.members ≡ vec_len self.members }
        ensures knows { AnswersBy (vec_len self.members)
            (copied_answer to of (λ q. knows q self)) result }
    {
        if to == of {
            return self;
        }
        let is_settled = self.settled.contains(of);
        let listed = self.members[of as usize];
        self.renewed(to, is_settled, listed)
    }

    /// What is settled for what stands behind a predecessor.
    pub fn settling(&self, behind: Option<u16>) -> VariableSet
        requires within { IfSome behind (λ g. g < vec_len self.now.members) }
        requires small { vec_len self.now.members < 256 }
        ensures { (x : ℕ) → in_set x result ≡ will_settle (λ q. knows q self.now) behind x }
    {
        match behind {
            None => self.settled,
            Some(predecessor) => {
                let listed = self.members[predecessor as usize];
                self.settled.union(listed).with(predecessor)
            }
        }
    }
}

ghost use Rattle.task_check.specs.Known.{in_set, is_listed};

fn put(set: VariableSet, variable: u16, is_in: bool) -> VariableSet
    requires { variable < 256 }
    ensures { (x : ℕ) → in_set x result ≡ cond (nat_eq x variable) is_in (in_set x set) }
{
    if is_in {
        set.with(variable)
    } else {
        set.without(variable)
    }
}

/// The member lists that both have, list by list.
fn joined_members(mut members: Vec<VariableSet>, other: &Vec<VariableSet>) -> Vec<VariableSet>
    requires { vec_len members ≡ vec_len other.now }
    ensures len { vec_len result ≡ vec_len members }
    ensures common { (g x : ℕ) → g < vec_len members → is_listed result.items g x
        ≡ (is_listed members.items g x && is_listed other.now.items g x) }
{
    'lists: for i in 0..members.len() {
        let both = members[i].common(other[i]);
        members[i] = both;
    }
    members
}

/// The member lists with a list of its own for a variable, which stands in no other.
fn relisted(mut members: Vec<VariableSet>, variable: u16, listed: VariableSet) -> Vec<VariableSet>
    requires within { variable < vec_len members }
    requires small { vec_len members < 256 }
    ensures len { vec_len result ≡ vec_len members }
    ensures lists { (g x : ℕ) → g < vec_len members → is_listed result.items g x
        ≡ cond (nat_eq g variable) (in_set x listed)
        (not (nat_eq variable x) && is_listed members.items g x) }
{
    'lists: for i in 0..members.len() {
        let rest = members[i].without(variable);
        members[i] = rest;
    }
    members[variable as usize] = listed;
    members
}
