ghost use Rattle.std.specs.Prelude.{◌≡◌, ◌+◌, ◌<◌, ◌≤◌, ◌^◌, ◌-◌, length};
ghost use Rattle.std.specs.Str.{encode_utf8_all};
ghost use Rattle.rules_tokens.specs.Tokens.{position_after};
ghost use Rattle.hs_lex.specs.Fronts.{IsPlace};

use crate::characters::is_line_feed;
use hs_base::Pos;

/// A place among the characters of a script.
#[derive(Clone, Copy)]
pub(crate) struct Place {
    /// How many characters stand before it.
    pub at: usize,
    /// How many bytes they take.
    pub byte: u32,
    /// Its line and column.
    pub pos: Pos,
}

impl Place {
    /// The place before the first character.
    pub(crate) fn start(chars: &[char]) -> Place
        ensures place { IsPlace chars.now result }
        ensures at { result.at ≡ 0 }
    {
        Place {
            at: 0,
            byte: 0,
            pos: Pos { line: 1, col: 1 },
        }
    }

    /// The place behind the next character.
    fn next(self, chars: &[char]) -> Place
        requires place { IsPlace chars.now self }
        requires more { self.at < length chars.now }
        requires small { length (encode_utf8_all chars.now) < 2 ^ 32 - 1 }
        ensures place { IsPlace chars.now result }
        ensures at { result.at ≡ self.at + 1 }
    {
        let c = chars[self.at];
        let pos = if is_line_feed(c) {
            Pos {
                line: self.pos.line + 1,
                col: 1,
            }
        } else {
            Pos {
                line: self.pos.line,
                col: self.pos.col + 1,
            }
        };
        Place {
            at: self.at + 1,
            byte: self.byte + c.len_utf8() as u32,
            pos,
        }
    }

    /// The place so many characters on.
    pub(crate) fn past(self, chars: &[char], count: usize) -> Place
        requires place { IsPlace chars.now self }
        requires more { self.at + count ≤ length chars.now }
        requires small { length (encode_utf8_all chars.now) < 2 ^ 32 - 1 }
        ensures place { IsPlace chars.now result }
        ensures at { result.at ≡ self.at + count }
    {
        let mut place = self;
        for _ in 0..count {
            place = place.next(chars);
        }
        place
    }
}
