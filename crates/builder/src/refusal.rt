// Why a model is not built, and why a build gives no answer.
ghost use Rattle.std.specs.Prelude.{◌≡◌};

use area::layout::SHORT_AREA;
use ast::open;

// The refusals by the number that the caller is told.
#[derive(Clone, Copy, Debug, PartialEq, Eq)]
pub enum Refusal {
    NoRoot = 5,
    ModelCycle = 6,
    SelfListedUnknown = 7,
    ArgumentBeyond = 8,
    OverMost = 9,
    ShortLeftSide = 10,
}

impl Refusal {
    ghost use Rattle.builder.specs.Refusals.{number_of};

    // As that of a file's refusal.
    pub fn number(self) -> u32
        ensures { result ≡ number_of self }
    {
        self as u32
    }
}

// Why a build gives no answer: the area is shorter than it, the file is refused, or the model.
#[derive(Clone, Copy, Debug, PartialEq, Eq)]
pub enum Refused {
    ShortArea,
    File(open::Refusal),
    Model(Refusal),
}

impl Refused {
    ghost use Rattle.builder.specs.Refusals.{refused_number};

    // The number that the caller is told.
    pub fn number(self) -> u32
        ensures { result ≡ refused_number self }
    {
        match self {
            Refused::ShortArea => SHORT_AREA,
            Refused::File(refusal) => refusal.number(),
            Refused::Model(refusal) => refusal.number(),
        }
    }
}

impl From<open::Refusal> for Refused {
    ghost use Rattle.builder.specs.declared.refusal.Refused.TheVariants.{File};

    ghost from_gives = { λ refusal refused. refused ≡ File refusal };

    fn from(refusal: open::Refusal) -> Refused {
        Refused::File(refusal)
    }
}

impl From<Refusal> for Refused {
    ghost use Rattle.builder.specs.declared.refusal.Refused.TheVariants.{Model};

    ghost from_gives = { λ refusal refused. refused ≡ Model refusal };

    fn from(refusal: Refusal) -> Refused {
        Refused::Model(refusal)
    }
}
