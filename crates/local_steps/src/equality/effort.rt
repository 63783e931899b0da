ghost use Rattle.std.specs.Prelude.{OnErr};

/// How many steps a comparison may still take.
#[derive(Drop)]
pub enum Effort {
    Endless,
    Steps(u64),
}

/// The steps of a comparison didn't do.
#[derive(Clone, Copy, Debug, PartialEq, Eq)]
pub struct Undecided;

impl Effort {
    ghost use Rattle.local_steps.specs.equality.Efforts.{IsEndless};

    /// Takes so many steps off. It fails only where they were counted.
    pub(crate) fn spend(&mut self, steps: u64) -> Result<(), Undecided>
        ensures endless { IsEndless self.old → IsEndless self.new }
        ensures err { OnErr result (IsEndless self.old → ⊥) }
    {
        match self {
            Effort::Endless => Ok(()),
            Effort::Steps(left) => {
                let Some(less) = left.checked_sub(steps) else {
                    return Err(Undecided);
                };
                *left = less;
                Ok(())
            }
        }
    }
}
