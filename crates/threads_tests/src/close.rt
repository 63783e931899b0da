//! Closing, with all hands given back.
ghost use Rattle.std.specs.Prelude.{◌≡◌, ◌≤◌, []};
ghost use Rattle.conc_hands.specs.Hands.{IsHandOf, hands_count, number_of};
ghost use Rattle.conc_hands.specs.Lists.{hands_in, spare_in};

use crate::items::Item;
use crate::two::{TestHand, TestHands, TestList};
use conc_hands::Leftover;

/// With both hands of an object.
pub fn close_two(
    hands: TestHands,
    mut list: TestList,
    one: TestHand,
    two: TestHand,
) -> Leftover<Item, Item>
    requires list { (hands_in list ≡ []) × (2 ≤ spare_in list) }
    requires hands { (hands_count hands ≡ 2) × IsHandOf hands one × (number_of one ≡ 0) × IsHandOf hands two × (number_of two ≡ 1) }
{
    list.give(one);
    list.give(two);
    hands.close(list)
}

/// With all four hands of an object.
pub fn close_four(
    hands: TestHands,
    mut list: TestList,
    first: (TestHand, TestHand),
    second: (TestHand, TestHand),
) -> Leftover<Item, Item>
    requires list { (hands_in list ≡ []) × (4 ≤ spare_in list) }
    requires count { hands_count hands ≡ 4 }
    requires first { IsHandOf hands first.0 × (number_of first.0 ≡ 0) × IsHandOf hands first.1 × (number_of first.1 ≡ 1) }
    requires second { IsHandOf hands second.0 × (number_of second.0 ≡ 2) × IsHandOf hands second.1 × (number_of second.1 ≡ 3) }
{
    list.give(first.0);
    list.give(first.1);
    list.give(second.0);
    list.give(second.1);
    hands.close(list)
}
