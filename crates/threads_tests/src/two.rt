//! Hands of an object, taken out of its list.
ghost use Rattle.std.specs.Prelude.{◌≡◌, ◌≤◌, [], IfOk};
ghost use Rattle.rules_code.specs.Codes.{body_of};
ghost use Rattle.conc_hands.specs.Hands.{IsHandOf, hands_code, hands_count, number_of};
ghost use Rattle.conc_hands.specs.Lists.{hands_in, spare_in};

use crate::items::Item;
use conc_hands::{Hand, HandList, Hands};
use hs_base::NoMemory;
use hs_rules::Code;
use std::alloc::Global;

pub type TestHands = Hands<Item, Item>;

pub type TestHand = Hand<Item, Item>;

pub type TestList = HandList<Item, Item>;

/// Two hands, with the object and their list, which is empty now.
pub fn two_hands(
    alloc: Global,
    code: &Code,
) -> Result<(TestHands, TestList, TestHand, TestHand), NoMemory>
    ensures object { IfOk result (λ r. (hands_code r.0 ≡ body_of code.now) × (hands_count r.0 ≡ 2)) }
    ensures list { IfOk result (λ r. (hands_in r.1 ≡ []) × (2 ≤ spare_in r.1)) }
    ensures hands { IfOk result (λ r. IsHandOf r.0 r.2 × (number_of r.2 ≡ 0) × IsHandOf r.0 r.3 × (number_of r.3 ≡ 1)) }
{
    let (hands, mut list) = Hands::new(alloc, 2, code)?;
    let one = list.take().unwrap();
    let two = list.take().unwrap();
    Ok((hands, list, one, two))
}

/// Four hands, with the object and their list, which is empty now.
pub fn four_hands(
    alloc: Global,
    code: &Code,
) -> Result<
    (
        TestHands,
        TestList,
        (TestHand, TestHand),
        (TestHand, TestHand),
    ),
    NoMemory,
>
    ensures object { IfOk result (λ r. (hands_code r.0 ≡ body_of code.now) × (hands_count r.0 ≡ 4)) }
    ensures list { IfOk result (λ r. (hands_in r.1 ≡ []) × (4 ≤ spare_in r.1)) }
    ensures first { IfOk result (λ r. IsHandOf r.0 r.2.0 × (number_of r.2.0 ≡ 0) × IsHandOf r.0 r.2.1 × (number_of r.2.1 ≡ 1)) }
    ensures second { IfOk result (λ r. IsHandOf r.0 r.3.0 × (number_of r.3.0 ≡ 2) × IsHandOf r.0 r.3.1 × (number_of r.3.1 ≡ 3)) }
{
    let (hands, mut list) = Hands::new(alloc, 4, code)?;
    let one = list.take().unwrap();
    let two = list.take().unwrap();
    let three = list.take().unwrap();
    let four = list.take().unwrap();
    Ok((hands, list, (one, two), (three, four)))
}
