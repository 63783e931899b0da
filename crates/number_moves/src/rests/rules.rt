//! What is known of eager local rules.
ghost use Rattle.std.specs.Prelude.{◌≡◌, ◌<◌, ◌^◌, ℕ, length, IfOk, IfSome, OnOk};
ghost use Rattle.rules_code.specs.declared.code.CodeBody as code;
ghost use Rattle.number_states.specs.Stocks.{Stock, HasGrown, IsTerm};
ghost use Rattle.number_moves.specs.rests.Rules.{rule_at, IsRule, LeadsEagerly, AreRules};

use hs_base::NoMemory;
use number_states::Numbers;
use rules_code::CodeBody;
use std::alloc::Global;

/// What is known of the local rule of a term.
#[derive(Clone, Copy, Debug)]
enum Rule {
    Unknown,
    /// It has none, or one that isn't eager.
    Other,
    /// An eager one leads to the term of this number.
    Eager(u32),
}

/// What is known of the local rules of terms by number, so that each is found out once.
#[derive(Drop)]
pub struct EagerRules {
    known: Vec<Rule>,
}

/// Finds out the local rule of the term of a number.
fn find(alloc: Global, body: &CodeBody, numbers: &mut Numbers, term: u32) -> Result<Rule, NoMemory>
    requires { IsTerm numbers.old term }
    ensures is { IfOk result (λ rule. IsRule body.now numbers.new term rule) }
    ensures grows { HasGrown numbers.old numbers.new }
{
    let Some(step) = numbers.step(alloc, body, term)? else {
        return Ok(Rule::Other);
    };
    if step.eager {
        Ok(Rule::Eager(step.term))
    } else {
        Ok(Rule::Other)
    }
}

impl EagerRules {
    /// Nothing is known yet.
    pub fn new(alloc: Global) -> EagerRules
        ensures { (b : code.CodeBody) (g : Stock) → AreRules b g result }
    {
        EagerRules {
            known: Vec::new(alloc),
        }
    }

    /// What is known of the term of a number.
    fn get(&self, term: u32) -> Rule
        ensures { result ≡ rule_at self.now.known.items term }
    {
        match self.known.get(term as usize) {
            None => Rule::Unknown,
            Some(rule) => *rule,
        }
    }

    /// Makes room for as many numbers as come before this place and the one at it. Nothing more is known.
    fn reach(&mut self, place: usize) -> Result<(), NoMemory>
        requires { place < 2 ^ 32 }
        ensures room { OnOk result (place < length self.new.known.items) }
        ensures same { OnOk result ((n : ℕ) → rule_at self.new.known.items n ≡ rule_at self.old.known.items n) }
    {
        if place < self.known.len() {
            return Ok(());
        }
        self.known.resize(place + 1, Rule::Unknown)?;
        Ok(())
    }

    /// Keeps what was found out of the term of a number.
    fn keep(&mut self, term: u32, rule: Rule) -> Result<(), NoMemory>
        ensures { OnOk result ((b : code.CodeBody) (g : Stock) → IsRule b g term rule → AreRules b g self.old → AreRules b g self.new) }
    {
        let place = term as usize;
        self.reach(place)?;
        self.known[place] = rule;
        Ok(())
    }

    /// The number of the term to which an eager local rule of the term of this number leads, if there is one. What isn't known
    /// yet is found out.
    pub(crate) fn eager(
        &mut self,
        alloc: Global,
        body: &CodeBody,
        numbers: &mut Numbers,
        term: u32,
    ) -> Result<Option<u32>, NoMemory>
        requires there { IsTerm numbers.old term }
        requires rules { AreRules body.now numbers.old self.old }
        ensures leads { IfOk result (λ found. IfSome found (λ to. LeadsEagerly body.now numbers.new term to)) }
        ensures rules { OnOk result (AreRules body.now numbers.new self.new) }
        ensures grows { HasGrown numbers.old numbers.new }
    {
        match self.get(term) {
            Rule::Other => Ok(None),
            Rule::Eager(to) => Ok(Some(to)),
            Rule::Unknown => {
                let rule = find(alloc, body, numbers, term)?;
                self.keep(term, rule)?;
                match rule {
                    Rule::Eager(to) => Ok(Some(to)),
                    _ => Ok(None),
                }
            }
        }
    }
}
