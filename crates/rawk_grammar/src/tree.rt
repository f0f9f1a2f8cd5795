//! Programs as they stand in the text: names are bytes, and every place where a run may stop has its place in the text.
//!
//! A place in the text is the number of bytes from there to the end of the text. Branches that `else if` joins are a list, so that a
//! tree is no deeper than the constructs that are open in the text.

use rawk_items::{Boxed, Items};
use rawk_parsing::tree::{Expr, Name, Place};

/// What a simple statement does.
#[derive(Drop)]
pub enum Act {
    Evaluate(Boxed<Expr>),
    /// with no expression, of the record
    Print(Items<Boxed<Expr>>),
    /// of one expression at least
    Printf(Items<Boxed<Expr>>),
    /// of a name or an element
    Delete(Place),
}

/// A simple statement, with the place of its first token.
#[derive(Drop)]
pub struct Simple {
    pub left: usize,
    pub act: Act,
}

/// A jump statement.
#[derive(Drop)]
pub enum Jump {
    Next,
    Break,
    Continue,
    Exit(Option<Boxed<Expr>>),
    Return(Option<Boxed<Expr>>),
}

/// An expression that is tested, with the place of its first token.
#[derive(Drop)]
pub struct Condition {
    pub left: usize,
    pub test: Boxed<Expr>,
}

/// A statement.
#[cycle(statements)]
#[derive(Drop)]
pub enum Stmt {
    /// a `;` alone
    Empty,
    Simple(Boxed<Simple>),
    /// with the place of its first token
    Jump(usize, Boxed<Jump>),
    Block(Items<Boxed<Stmt>>),
    /// one branch or more, and the body of the `else` behind them
    If(Items<Boxed<Branch>>, Option<Boxed<Stmt>>),
    While(Boxed<Condition>, Boxed<Stmt>),
    Do(Boxed<Stmt>, Boxed<Condition>),
    For(Boxed<Head>, Boxed<Stmt>),
    /// the place of `for`, the variable, the array and the body
    ForIn(usize, Name, Name, Boxed<Stmt>),
}

/// A condition of an `if`, and its body.
#[cycle(statements)]
#[derive(Drop)]
pub struct Branch {
    pub condition: Boxed<Condition>,
    pub body: Boxed<Stmt>,
}

/// What stands in the parentheses of a `for` that counts.
#[cycle(statements)]
#[derive(Drop)]
pub struct Head {
    /// simple, as `last`
    pub first: Option<Boxed<Stmt>>,
    /// the condition's place, or that of the `;` behind a missing one
    pub left: usize,
    pub test: Option<Boxed<Expr>>,
    pub last: Option<Boxed<Stmt>>,
}

/// What says at which records a rule runs, with the place of its first token.
#[derive(Drop)]
pub enum Pattern {
    When(usize, Boxed<Expr>),
    /// from the first expression to the second
    Range(usize, Boxed<Expr>, Boxed<Expr>),
}

/// What a rule with a pattern does.
#[derive(Drop)]
pub enum Action {
    /// none is written; the place is directly behind the pattern
    Missing(usize),
    Given(Items<Boxed<Stmt>>),
}

/// A part of a program.
#[derive(Drop)]
pub enum Item {
    Begin(Items<Boxed<Stmt>>),
    End(Items<Boxed<Stmt>>),
    /// an action with no pattern, with the place of its `{`
    Always(usize, Items<Boxed<Stmt>>),
    Rule(Boxed<Pattern>, Action),
    /// the place of `function`, the name, the parameters and the body
    Function(usize, Name, Items<Name>, Items<Boxed<Stmt>>),
}
