// Expressions, conditions, statements and blocks.

/// The number of a name.
#[derive(Clone, Copy, Debug, PartialEq, Eq)]
pub struct Name(pub u32);

/// What a name stands for.
#[derive(Clone, Copy, Debug, PartialEq, Eq)]
pub enum Sort {
    Num,
    Arr,
}

/// An expression over whole numbers.
#[derive(Debug, Drop)]
pub enum Expr {
    Num(i128),
    Var(Name),
    Read(Name, Box<Expr>),
    Neg(Box<Expr>),
    Add(Box<Expr>, Box<Expr>),
    Sub(Box<Expr>, Box<Expr>),
    Mul(Box<Expr>, Box<Expr>),
}

/// A comparison.
#[derive(Clone, Copy, Debug)]
pub enum Cmp {
    Eq,
    Ne,
    Lt,
    Le,
    Gt,
    Ge,
}

/// A condition.
#[derive(Debug, Drop)]
pub enum Cond {
    Yes,
    No,
    Cmp(Cmp, Expr, Expr),
    Not(Box<Cond>),
    And(Box<Cond>, Box<Cond>),
    Or(Box<Cond>, Box<Cond>),
}

/// A statement.
#[cycle(syntax)]
#[derive(Debug, Drop)]
pub enum Stmt {
    Skip,
    Assign(Name, Expr),
    Store(Name, Expr, Expr),
    If(Cond, Block, Block),
    While(Cond, Block),
    Hole(u32),
}

/// A list of statements.
#[cycle(syntax)]
#[derive(Debug, Drop)]
pub struct Block {
    pub list: Vec<Stmt>,
}
