ghost use Rattle.std.specs.Prelude.{◌≡◌};
ghost use Rattle.hs_rules.specs.Histories.{cost_of};

use hs_rules::Entry;

/// The steps of an entry.
pub(crate) fn cost(entry: Entry) -> u32
    ensures { result ≡ cost_of entry }
{
    match entry {
        Entry::Local { t: _, k } => k,
        _ => 1,
    }
}
