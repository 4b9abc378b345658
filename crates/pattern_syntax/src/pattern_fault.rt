ghost use Rattle.std.specs.Prelude.{◌≡◌};
ghost use Rattle.pattern_syntax.specs.declared.pattern_fault.PatternFault.TheVariants as faults;

use label_base::OutOfMemory;

/// What is wrong with a text that is no pattern. Places count from 0.
#[derive(Clone, Copy, Debug, PartialEq, Eq)]
pub enum PatternWhy {
    /// What stands here is no pattern.
    Syntax { at: u32 },
    /// What stands here is PCRE, but not of this dialect.
    UnsupportedPattern { at: u32 },
    /// The group that begins here would be one more than may be open at once.
    TooDeep { at: u32 },
    /// The pattern has more positions than it may have.
    TooManyPositions,
}

/// Why a text gave no pattern.
#[derive(Clone, Copy, Debug, PartialEq, Eq)]
pub enum PatternFault {
    Syntax { at: u32 },
    UnsupportedPattern { at: u32 },
    TooDeep { at: u32 },
    TooManyPositions,
    OutOfMemory,
}

impl PatternFault {
    ghost use Rattle.pattern_syntax.specs.PatternCause.{pattern_cause};

    /// What is wrong with the text; nothing where memory ran out.
    pub fn why(&self) -> Option<PatternWhy>
        ensures { result ≡ pattern_cause self.now }
    {
        match *self {
            PatternFault::Syntax { at } => Some(PatternWhy::Syntax { at }),
            PatternFault::UnsupportedPattern { at } => Some(PatternWhy::UnsupportedPattern { at }),
            PatternFault::TooDeep { at } => Some(PatternWhy::TooDeep { at }),
            PatternFault::TooManyPositions => Some(PatternWhy::TooManyPositions),
            PatternFault::OutOfMemory => None,
        }
    }
}

impl From<OutOfMemory> for PatternFault {
    ghost from_gives = { λ _ e. e ≡ faults.OutOfMemory };

    fn from(_refused: OutOfMemory) -> PatternFault {
        PatternFault::OutOfMemory
    }
}
