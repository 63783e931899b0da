ghost use Rattle.std.specs.Prelude.{◌≡◌, ◌↔◌, IfOk, IsTrue, string_bytes};

use crate::no_memory::NoMemory;
use std::alloc::Global;
use std::marker::Model;
use std::sync::ArcStr;

/// A text. Contracts see the list of its bytes, so two texts that are equal are equal values.
#[derive(Debug)]
pub struct Txt {
    text: ArcStr<Global>,
}

// Written out, so that it is proved once, here, and not in each function above that lets one go.
impl Drop for Txt {
    fn drop(self) {
        let Txt { text: _ } = self;
    }
}

impl Model for Txt {
    ghost use Rattle.std.specs.Prelude.{List, ℕ};
    ghost use Rattle.std.specs.Arc.{arc_str_bytes};

    ghost Value = { List ℕ };

    ghost view = { λ t. arc_str_bytes t.text };
}

impl Txt {
    /// Holds the same text.
    pub fn of(alloc: Global, text: &str) -> Result<Txt, NoMemory>
        ensures { IfOk result (λ t. t ≡ text.now) }
    {
        let text = ArcStr::from_str(alloc, text)?;
        Ok(Txt { text })
    }

    /// Keeps the text of a `String`.
    pub fn from_string(text: String) -> Result<Txt, NoMemory>
        ensures { IfOk result (λ t. t ≡ string_bytes text) }
    {
        let text = ArcStr::from_string(text)?;
        Ok(Txt { text })
    }

    /// Lends the text.
    pub fn as_str(&self) -> &str
        ensures { result.now ≡ self.now }
    {
        self.text.as_str()
    }

    /// An equal text, by one more owner.
    pub fn copy(&self, _alloc: Global) -> Result<Txt, NoMemory>
        ensures { IfOk result (λ t. t ≡ self.now) }
    {
        let text = self.text.clone()?;
        Ok(Txt { text })
    }

    /// Whether the two texts have the same bytes.
    pub fn same(&self, other: &Txt) -> bool
        ensures { IsTrue result ↔ (self.now ≡ other.now) }
    {
        self.as_str() == other.as_str()
    }
}
