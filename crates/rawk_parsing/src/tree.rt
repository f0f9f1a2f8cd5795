//! Expressions as they stand in the text: names are bytes, and each pair of parentheses is a node.
//!
//! A place in the text is the number of bytes from there to the end of the text. Operators of one level that stand side by side
//! are a list, so that a tree is no deeper than the constructs that are open in the text.

use rawk_items::{Boxed, Items};
use rawk_keywords::Builtin;
use rawk_value::{Arithmetic, Bytes, Comparison};
use rawk_words::{Logic, Sign};

/// A name where it is used.
#[derive(Drop)]
pub struct Name {
    /// its place in the text
    pub left: usize,
    pub word: Bytes,
}

/// What joins two operands.
#[derive(Clone, Copy, PartialEq, Eq)]
pub enum Operator {
    Arithmetic(Arithmetic),
    Comparison(Comparison),
    /// two operands side by side
    Concat,
    /// `~`
    Match,
    /// `!~`
    NotMatch,
}

/// What `++` and `--` do.
#[derive(Clone, Copy, PartialEq, Eq)]
pub enum Change {
    Increment,
    Decrement,
}

/// What an assignment does with the old value.
#[derive(Clone, Copy, PartialEq, Eq)]
pub enum Assignment {
    /// `=`
    Plain,
    /// an operator before the `=`
    Update(Arithmetic),
}

/// An expression.
#[cycle(trees)]
#[derive(Drop)]
pub enum Expr {
    Number(i64),
    /// the bytes that it stands for
    Text(Bytes),
    /// a regular expression's place, and its bytes between the slashes
    Ere(usize, Bytes),
    Of(Place),
    /// in parentheses
    Group(Boxed<Expr>),
    /// `++` or `--`, then the place
    Before(Change, Place),
    /// the place, then `++` or `--`
    After(Change, Place),
    Power(Boxed<Expr>, Boxed<Expr>),
    Signed(Sign, Boxed<Expr>),
    /// an operand, and one more at least, all operators of one level
    Chain(Boxed<Expr>, Items<Link>),
    /// `in`, with one array or more
    In(Boxed<Expr>, Items<Name>),
    /// two subscripts or more in parentheses, then `in`
    ListIn(Items<Boxed<Expr>>, Name),
    /// two operands or more
    Logic(Logic, Items<Boxed<Expr>>),
    Choice(Boxed<Expr>, Boxed<Expr>, Boxed<Expr>),
    Assign(Assignment, Place, Boxed<Expr>),
    /// as many arguments as the function takes; the third of `sub` and `gsub` is `Of` a place, the second of `split` `Of` a name
    Builtin(Builtin, Items<Boxed<Expr>>),
    /// of a function of the program
    Call(Name, Items<Boxed<Expr>>),
    Getline,
    GetlineTo(Place),
}

/// An operator and its right operand.
#[cycle(trees)]
#[derive(Drop)]
pub struct Link {
    pub operator: Operator,
    pub operand: Boxed<Expr>,
}

/// What can be read and assigned.
#[cycle(trees)]
#[derive(Drop)]
pub enum Place {
    Name(Name),
    /// an array, and one subscript at least
    Element(Name, Items<Boxed<Expr>>),
    Field(Boxed<Expr>),
}
