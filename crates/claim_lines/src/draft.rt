ghost use Rattle.std.specs.Prelude.{◌≡◌, [], ◌∷◌, ◌++◌, List, IfOk, MatchOption, None};
ghost use Rattle.claim_lines.specs.declared.words.Word.{Word as AWord};
ghost use Rattle.claim_lines.specs.declared.words.Word.TheVariants.{Letters, Text};
ghost use Rattle.claim_lines.specs.declared.claim.Says.{Says as ASays};
ghost use Rattle.claim_lines.specs.Grammar.{BeginsSomeClaim, IsClaim};
ghost use Rattle.claim_lines.specs.Drafts.{At, First, HasRead, StepsTo, goes, state_of};
ghost use Rattle.claim_lines.specs.declared.draft.Next.TheVariants as awaited;

use crate::claim::{Part, Says};
use crate::words::Word;
use hs_base::{NoMemory, Txt};
use hs_items::Items;
use std::alloc::Global;

/// The first word of a claim that has a condition.
#[derive(Clone, Copy)]
pub(crate) enum Verb {
    Always,
    Never,
    Sometimes,
}

/// What the text of a part is looked for in.
#[derive(Clone, Copy)]
pub(crate) enum Stream {
    Output,
    Errors,
}

/// What a condition has to go on with.
#[derive(Clone, Copy)]
pub(crate) enum Next {
    Part,
    /// A text, or `has` and a text.
    TextOrHas(Stream),
    /// A text, behind `has`.
    Text(Stream),
    /// `and`, if with anything.
    And,
}

/// What a word does in a condition.
#[derive(Drop)]
enum Step {
    Await(Next),
    /// It ends this part.
    Add(Part),
}

/// A claim of which some words are read.
#[derive(Drop)]
pub(crate) enum Draft {
    Begin,
    /// With the parts that are read whole.
    Condition(Verb, Items<Part>, Next),
    Terminates,
}

impl Draft {
    /// The draft with this word behind those that are read. None if no claim begins so.
    pub(crate) fn then(self, alloc: Global, word: Word) -> Result<Option<Draft>, NoMemory>
        ensures { IfOk result (λ r. (words : List AWord) → HasRead words self → MatchOption r (¬ BeginsSomeClaim (words ++ word ∷ [])) (HasRead (words ++ word ∷ []))) }
    {
        self.step(alloc, word)
    }

    /// The same, by how far the claim has come.
    fn step(self, alloc: Global, word: Word) -> Result<Option<Draft>, NoMemory>
        ensures { IfOk result (λ r. (words : List AWord) → HasRead words self → MatchOption r (goes (state_of self) word ≡ None) (HasRead (words ++ word ∷ []))) }
    {
        match self {
            Draft::Begin => Ok(first(alloc, &word)),
            Draft::Condition(verb, parts, next) => condition_then(verb, parts, next, word),
            Draft::Terminates => Ok(None),
        }
    }

    /// What the words that are read say, if they are a claim.
    pub(crate) fn done(self) -> Option<Says>
        ensures { (words : List AWord) → HasRead words self → MatchOption result ((says : ASays) → ¬ IsClaim words says) (IsClaim words) }
    {
        match self {
            Draft::Begin => None,
            Draft::Condition(verb, parts, next) => condition_done(verb, parts, next),
            Draft::Terminates => Some(Says::Terminates),
        }
    }
}

fn condition_done(verb: Verb, parts: Items<Part>, next: Next) -> Option<Says>
    ensures { (words : List AWord) → HasRead words (Draft.Condition verb parts next) → MatchOption result ((says : ASays) → ¬ IsClaim words says) (IsClaim words) }
{
    if let Next::And = next {
        Some(said(verb, parts))
    } else {
        None
    }
}

fn said(verb: Verb, parts: Items<Part>) -> Says
    ensures { (words : List AWord) → HasRead words (Draft.Condition verb parts Next.And) → IsClaim words result }
{
    match verb {
        Verb::Always => Says::Always(parts),
        Verb::Never => Says::Never(parts),
        Verb::Sometimes => Says::Sometimes(parts),
    }
}

/// What a claim with this first word goes on with.
fn first(alloc: Global, word: &Word) -> Option<Draft>
    ensures { MatchOption result (goes First word.now ≡ None) (HasRead (word.now ∷ [])) }
{
    let Word::Letters(letters) = word else {
        return None;
    };
    match letters.as_str() {
        "always" => Some(condition(alloc, Verb::Always)),
        "never" => Some(condition(alloc, Verb::Never)),
        "sometimes" => Some(condition(alloc, Verb::Sometimes)),
        "terminates" => Some(Draft::Terminates),
        _ => None,
    }
}

/// A condition of which no word is read.
fn condition(alloc: Global, verb: Verb) -> Draft
    ensures { result ≡ Draft.Condition verb [] Next.Part }
{
    Draft::Condition(verb, Items::new(alloc), Next::Part)
}

fn condition_then(
    verb: Verb,
    parts: Items<Part>,
    next: Next,
    word: Word,
) -> Result<Option<Draft>, NoMemory>
    ensures { IfOk result (λ r. (words : List AWord) → HasRead words (Draft.Condition verb parts next) → MatchOption r (goes (At next) word ≡ None) (HasRead (words ++ word ∷ []))) }
{
    match word_step(next, word) {
        Some(Step::Await(next)) => Ok(Some(Draft::Condition(verb, parts, next))),
        Some(Step::Add(part)) => {
            let mut parts = parts;
            parts.add(part)?;
            Ok(Some(Draft::Condition(verb, parts, Next::And)))
        }
        None => Ok(None),
    }
}

fn word_step(next: Next, word: Word) -> Option<Step>
    ensures { MatchOption result (goes (At next) word ≡ None) (StepsTo next word) }
{
    match word {
        Word::Letters(letters) => letters_step(next, letters.as_str()),
        Word::Text(text) => text_step(next, text),
        Word::Wrong => None,
    }
}

fn letters_step(next: Next, letters: &str) -> Option<Step>
    ensures { MatchOption result (goes (At next) (Letters letters.now) ≡ None) (StepsTo next (Letters letters.now)) }
{
    match next {
        Next::Part => part_step(letters),
        Next::TextOrHas(stream) => {
            if letters == "has" {
                Some(Step::Await(Next::Text(stream)))
            } else {
                None
            }
        }
        Next::Text(_) => None,
        Next::And => {
            if letters == "and" {
                Some(Step::Await(Next::Part))
            } else {
                None
            }
        }
    }
}

fn part_step(letters: &str) -> Option<Step>
    ensures { MatchOption result (goes (At awaited.Part) (Letters letters.now) ≡ None) (StepsTo awaited.Part (Letters letters.now)) }
{
    match letters {
        "done" => Some(Step::Add(Part::Done)),
        "uncaught" => Some(Step::Add(Part::Uncaught)),
        "deadlock" => Some(Step::Add(Part::Deadlock)),
        "stuck" => Some(Step::Add(Part::Stuck)),
        "output" => Some(Step::Await(Next::TextOrHas(Stream::Output))),
        "errors" => Some(Step::Await(Next::TextOrHas(Stream::Errors))),
        _ => None,
    }
}

fn text_step(next: Next, text: Txt) -> Option<Step>
    ensures { MatchOption result (goes (At next) (Text text) ≡ None) (StepsTo next (Text text)) }
{
    match next {
        Next::TextOrHas(Stream::Output) => Some(Step::Add(Part::Output(text))),
        Next::TextOrHas(Stream::Errors) => Some(Step::Add(Part::Errors(text))),
        Next::Text(Stream::Output) => Some(Step::Add(Part::OutputHas(text))),
        Next::Text(Stream::Errors) => Some(Step::Add(Part::ErrorsHas(text))),
        Next::Part | Next::And => None,
    }
}
