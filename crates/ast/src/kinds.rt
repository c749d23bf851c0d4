// The kinds of nodes and of statements, the domains of unknowns and the signs of operators, each with the number that
// stands for it in a file.
#![tactic(auto, unfolding(crate::specs::Kinds::ReadAs))]
// Of a word or a number that stands for none of them.
#[derive(Clone, Copy, Debug, PartialEq, Eq)]
pub struct NoKind;

// The kinds of nodes: an expression is one of the first five, an argument holds one.
#[derive(Clone, Copy, Debug, PartialEq, Eq)]
pub enum NodeKind {
    Name = 1,
    Number = 2,
    Binary = 3,
    Unary = 4,
    Call = 5,
    Argument = 6,
}

// The kinds of statements.
#[derive(Clone, Copy, Debug, PartialEq, Eq)]
pub enum StmtKind {
    Equation = 1,
    Rate = 2,
    Submodel = 3,
}

// The domains of unknowns.
#[derive(Clone, Copy, Debug, PartialEq, Eq)]
pub enum DomainKind {
    None = 0,
    Range = 1,
    Named = 2,
}

// The signs of operators, by their characters.
#[derive(Clone, Copy, Debug, PartialEq, Eq)]
pub enum Sign {
    Times = 42,
    Plus = 43,
    Minus = 45,
    Divided = 47,
}

// These conversions are alike but for their cases: an impl that a macro writes is not allowed here, and a table
// would be searched where a match is one step.
impl TryFrom<usize> for NodeKind {
    ghost use Rattle.ast.specs.Kinds.{ReadAs, node_number};

    type Error = NoKind;

    ghost try_from_gives = { λ word r. ReadAs node_number word r };

    fn try_from(word: usize) -> Result<NodeKind, NoKind> {
        match word {
            1 => Ok(NodeKind::Name),
            2 => Ok(NodeKind::Number),
            3 => Ok(NodeKind::Binary),
            4 => Ok(NodeKind::Unary),
            5 => Ok(NodeKind::Call),
            6 => Ok(NodeKind::Argument),
            _ => Err(NoKind),
        }
    }
}

impl TryFrom<usize> for StmtKind {
    ghost use Rattle.ast.specs.Kinds.{ReadAs, stmt_number};

    type Error = NoKind;

    ghost try_from_gives = { λ word r. ReadAs stmt_number word r };

    fn try_from(word: usize) -> Result<StmtKind, NoKind> {
        match word {
            1 => Ok(StmtKind::Equation),
            2 => Ok(StmtKind::Rate),
            3 => Ok(StmtKind::Submodel),
            _ => Err(NoKind),
        }
    }
}

impl TryFrom<usize> for DomainKind {
    ghost use Rattle.ast.specs.Kinds.{ReadAs, domain_number};

    type Error = NoKind;

    ghost try_from_gives = { λ word r. ReadAs domain_number word r };

    fn try_from(word: usize) -> Result<DomainKind, NoKind> {
        match word {
            0 => Ok(DomainKind::None),
            1 => Ok(DomainKind::Range),
            2 => Ok(DomainKind::Named),
            _ => Err(NoKind),
        }
    }
}

impl TryFrom<usize> for Sign {
    ghost use Rattle.ast.specs.Kinds.{ReadAs, sign_number};

    type Error = NoKind;

    ghost try_from_gives = { λ word r. ReadAs sign_number word r };

    fn try_from(word: usize) -> Result<Sign, NoKind> {
        match word {
            42 => Ok(Sign::Times),
            43 => Ok(Sign::Plus),
            45 => Ok(Sign::Minus),
            47 => Ok(Sign::Divided),
            _ => Err(NoKind),
        }
    }
}
