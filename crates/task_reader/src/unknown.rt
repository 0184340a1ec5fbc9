//! The look-up of names, word by word: each call takes the words that it looks up.

ghost use Rattle.std.specs.Prelude.{◌≡◌, ◌≤◌, ◌<◌, ◌+◌, ◌^◌, ◌++◌, length, map, not, IfSome, option_map, OnOk};
ghost use Rattle.std.specs.List.{position};
ghost use Rattle.task_text.specs.Scan.{is_among as is_among_names};
ghost use Rattle.task_lines.specs.Scope.{has_variable as has_variable_of};
ghost use Rattle.task_reader.specs.Names.{known, uses_known, Known};
ghost use Rattle.task_reader.specs.Uses.{UsesFuture, UsesRoot, behind_uses, futures_uses, passed_use, passed_uses, root_term_use, root_passed_uses};
ghost use Rattle.task_reader.specs.Finding.{is_known_term, is_known_passed, is_known_root_term, unknown_at, behind};

use crate::place::{has_variable, is_among};
use task_lines::{Passed, RootTerm, Term};
use task_syntax::{Name, Sort, Variable};
use task_text::{Cause, Fault};

/// The place of the next word of a line.
#[derive(Drop)]
pub struct WordPlace {
    line: u32,
    word: u32,
}

impl WordPlace {
    /// The first word of a line.
    pub fn first(line: u32) -> WordPlace
        ensures line { result.line ≡ line }
        ensures word { result.word ≡ 1 }
    {
        WordPlace { line, word: 1 }
    }

    /// Takes words that name nothing which is looked up.
    pub fn pass(&mut self, count: usize)
        requires { self.old.word + count < 2 ^ 32 }
        ensures { self.new ≡ behind count self.old }
    {
        self.word += count as u32;
    }

    /// Takes a word, which is at fault where its name is not known.
    pub fn known(&mut self, is_known: bool) -> Result<(), Fault>
        requires { self.old.word + 1 < 2 ^ 32 }
        ensures found { result ≡ known self.old.line self.old.word is_known }
        ensures place { self.new ≡ behind 1 self.old }
    {
        let word = self.word;
        self.word += 1;
        if is_known {
            Ok(())
        } else {
            Err(Fault {
                cause: Cause::UnknownName,
                line: self.line,
                word,
            })
        }
    }

    pub fn number_known(&mut self, variables: &[Variable], name: &Name) -> Result<(), Fault>
        requires { self.old.word + 1 < 2 ^ 32 }
        ensures found { result
            ≡ known self.old.line self.old.word
            (has_variable_of variables.now Sort.Number name.now) }
        ensures place { self.new ≡ behind 1 self.old }
    {
        self.known(has_variable(variables, Sort::Number, name))
    }

    pub fn future_known(&mut self, variables: &[Variable], name: &Name) -> Result<(), Fault>
        requires { self.old.word + 1 < 2 ^ 32 }
        ensures found { result
            ≡ known self.old.line self.old.word
            (has_variable_of variables.now Sort.Future name.now) }
        ensures place { self.new ≡ behind 1 self.old }
    {
        self.known(has_variable(variables, Sort::Future, name))
    }

    /// An operand, whose variable may be unknown.
    pub fn term_known(&mut self, variables: &[Variable], term: &Term) -> Result<(), Fault>
        requires { self.old.word + 1 < 2 ^ 32 }
        ensures found { result
            ≡ known self.old.line self.old.word (is_known_term variables.now term.now) }
        ensures place { self.new ≡ behind 1 self.old }
    {
        self.known(is_known_term(variables, term))
    }

    /// Takes the words of a list, of which the one at `place` may be unknown.
    fn list_known(&mut self, count: usize, place: Option<usize>) -> Result<(), Fault>
        requires fits { self.old.word + count < 2 ^ 32 }
        requires inside { IfSome place (λ at. at < count) }
        ensures found { result ≡ unknown_at self.old.line self.old.word place }
        ensures place { self.new ≡ behind count self.old }
    {
        let word = self.word;
        self.word += count as u32;
        match place {
            Some(at) => Err(Fault {
                cause: Cause::UnknownName,
                line: self.line,
                word: word + at as u32,
            }),
            None => Ok(()),
        }
    }

    /// The futures of a list.
    pub fn futures_known(&mut self, variables: &[Variable], names: &[Name]) -> Result<(), Fault>
        requires { self.old.word + length names.now < 2 ^ 32 }
        ensures found { (k : Known) → k.variables ≡ variables.now
            → result ≡ uses_known k self.old.line self.old.word (map UsesFuture names.now) }
        ensures place { self.new ≡ behind (length names.now) self.old }
    {
        self.list_known(names.len(), unknown_future(variables, names))
    }

    /// What a spawn passes.
    pub fn arguments_known(
        &mut self,
        variables: &[Variable],
        arguments: &[Passed],
    ) -> Result<(), Fault>
        requires { self.old.word + length arguments.now < 2 ^ 32 }
        ensures found { (k : Known) → k.variables ≡ variables.now
            → result ≡ uses_known k self.old.line self.old.word (map passed_use arguments.now) }
        ensures place { self.new ≡ behind (length arguments.now) self.old }
    {
        self.list_known(arguments.len(), unknown_passed(variables, arguments))
    }

    /// What a root passes.
    pub fn root_terms_known(&mut self, roots: &[Name], arguments: &[RootTerm]) -> Result<(), Fault>
        requires { self.old.word + length arguments.now < 2 ^ 32 }
        ensures found { (k : Known) → k.roots ≡ roots.now
            → result ≡ uses_known k self.old.line self.old.word (map root_term_use arguments.now) }
        ensures place { self.new ≡ behind (length arguments.now) self.old }
    {
        self.list_known(arguments.len(), unknown_root_term(roots, arguments))
    }

    /// What a spawn passes, and its predecessor.
    pub fn passed_known(
        &mut self,
        variables: &[Variable],
        arguments: &[Passed],
        behind: &Option<Name>,
    ) -> Result<(), Fault>
        requires { self.old.word + length arguments.now + 2 < 2 ^ 32 }
        ensures { (k : Known) → k.variables ≡ variables.now
            → result ≡ uses_known k self.old.line self.old.word
            (passed_uses arguments.now behind.now) }
    {
        self.arguments_known(variables, arguments)?;
        self.behind_known(variables, behind)
    }

    /// What a root passes, and its predecessor.
    pub fn root_passed_known(
        &mut self,
        roots: &[Name],
        arguments: &[RootTerm],
        behind: &Option<Name>,
    ) -> Result<(), Fault>
        requires { self.old.word + length arguments.now + 2 < 2 ^ 32 }
        ensures { (k : Known) → k.roots ≡ roots.now
            → result ≡ uses_known k self.old.line self.old.word
            (root_passed_uses arguments.now behind.now) }
    {
        self.root_terms_known(roots, arguments)?;
        self.behind_root_known(roots, behind)
    }

    /// A list of futures behind its fixed word, which is left out where the list is empty.
    #[tactic(auto, unfolding(crate::specs::Names::uses_known))]
    fn list_behind_word(&mut self, variables: &[Variable], names: &[Name]) -> Result<(), Fault>
        requires { self.old.word + 1 + length names.now < 2 ^ 32 }
        ensures found { (k : Known) → k.variables ≡ variables.now
            → result ≡ uses_known k self.old.line self.old.word (futures_uses names.now) }
        ensures place { self.new ≡ behind (length (futures_uses names.now)) self.old }
    {
        if names.is_empty() {
            return Ok(());
        }
        self.pass(1);
        self.futures_known(variables, names)
    }

    /// The futures of a state: those that it holds, and those that have settled.
    pub fn listed_known(
        &mut self,
        variables: &[Variable],
        holds: &[Name],
        settled: &[Name],
    ) -> Result<(), Fault>
        requires { self.old.word + 2 + length holds.now + length settled.now < 2 ^ 32 }
        ensures { (k : Known) → k.variables ≡ variables.now
            → result ≡ uses_known k self.old.line self.old.word
            (futures_uses holds.now ++ futures_uses settled.now) }
    {
        self.list_behind_word(variables, holds)?;
        self.list_behind_word(variables, settled)
    }

    /// The predecessor behind the word `behind`, where one is named.
    #[tactic(auto, unfolding(crate::specs::Names::uses_known))]
    pub fn behind_known(
        &mut self,
        variables: &[Variable],
        behind: &Option<Name>,
    ) -> Result<(), Fault>
        requires { self.old.word + 2 < 2 ^ 32 }
        ensures { (k : Known) → k.variables ≡ variables.now
            → result ≡ uses_known k self.old.line self.old.word
            (behind_uses UsesFuture behind.now) }
    {
        match behind {
            Some(name) => {
                self.pass(1);
                self.future_known(variables, name)
            }
            None => Ok(()),
        }
    }

    /// The root behind the word `behind`, where one is named.
    #[tactic(auto, unfolding(crate::specs::Names::uses_known))]
    pub fn behind_root_known(&mut self, roots: &[Name], behind: &Option<Name>) -> Result<(), Fault>
        requires { self.old.word + 2 < 2 ^ 32 }
        ensures { (k : Known) → k.roots ≡ roots.now
            → result ≡ uses_known k self.old.line self.old.word (behind_uses UsesRoot behind.now) }
    {
        match behind {
            Some(name) => {
                self.pass(1);
                self.known(is_among(roots, name))
            }
            None => Ok(()),
        }
    }
}

fn is_known_term(variables: &[Variable], term: &Term) -> bool
    ensures { result ≡ is_known_term variables.now term.now }
{
    match term {
        Term::Literal(_) => true,
        Term::Variable(name) => has_variable(variables, Sort::Number, name),
    }
}

fn is_known_passed(variables: &[Variable], passed: &Passed) -> bool
    ensures { result ≡ is_known_passed variables.now passed.now }
{
    match passed {
        Passed::Number(term) => is_known_term(variables, term),
        Passed::Future(name) => has_variable(variables, Sort::Future, name),
    }
}

fn is_known_root_term(roots: &[Name], term: &RootTerm) -> bool
    ensures { result ≡ is_known_root_term roots.now term.now }
{
    match term {
        RootTerm::Number(_) => true,
        RootTerm::Root(name) => is_among(roots, name),
    }
}

fn unknown_future(variables: &[Variable], names: &[Name]) -> Option<usize>
    ensures exact { result
        ≡ position (λ name. not (has_variable_of variables.now Sort.Future name)) names.now }
    ensures bound { IfSome result (λ at. at < length names.now) }
{
    names
        .iter()
        .position(|name| !has_variable(variables, Sort::Future, name))
}

fn unknown_passed(variables: &[Variable], arguments: &[Passed]) -> Option<usize>
    ensures exact { result
        ≡ position (λ passed. not (is_known_passed variables.now passed)) arguments.now }
    ensures bound { IfSome result (λ at. at < length arguments.now) }
{
    arguments
        .iter()
        .position(|passed| !is_known_passed(variables, passed))
}

fn unknown_root_term(roots: &[Name], arguments: &[RootTerm]) -> Option<usize>
    ensures exact { result
        ≡ position (λ term. not (is_known_root_term roots.now term)) arguments.now }
    ensures bound { IfSome result (λ at. at < length arguments.now) }
{
    arguments
        .iter()
        .position(|term| !is_known_root_term(roots, term))
}
