//! The tree of a program. Names are numbers, what the text leaves out is filled in, and each place where a point is reached has its site.

use rawk_value::{Arithmetic, Bytes, Comparison};
use rawk_words::{Array, Extent, Logic, Sign};

/// What joins two values.
#[derive(Clone, Copy, PartialEq, Eq)]
pub enum Joiner {
    Arithmetic(Arithmetic),
    Comparison(Comparison),
    /// two operands side by side
    Concat,
    /// the place of the right text in the left one
    Index,
    /// the bytes of the left text from the place on that the right number says
    Substr,
    /// `~`: whether the left text has a match of the expression that the right text is
    Matches,
    /// `!~`
    NotMatches,
}

/// What makes a value of one (POSIX awk, Expressions in awk, Arithmetic Functions, String Functions).
#[derive(Clone, Copy, PartialEq, Eq)]
pub enum Unary {
    /// a sign or `!`
    Sign(Sign),
    /// how many bytes its text has
    Length,
    ToLower,
    ToUpper,
    Int,
}

/// How a separator separates (POSIX awk, String Functions, `split`).
#[derive(Clone, Copy, PartialEq, Eq)]
pub enum Separation {
    /// as the same text in FS does
    Fields,
    /// as an extended regular expression of any length
    Matches,
}

/// An expression (POSIX awk, Expressions in awk).
#[cycle(expressions)]
#[derive(Drop)]
pub enum Expr {
    Number(i64),
    Text(Bytes),
    /// the value of a place
    Read(Place),
    /// an operator or a function of one operand
    Unary(Unary, Box<Expr>),
    /// an operand, and more of them from left to right
    Chain(Box<Expr>, Vec<Link>),
    /// the second where the first is true, and else the third
    Choice(Box<Expr>, Box<Expr>, Box<Expr>),
    Assign(Place, Box<Expr>),
    /// `+=`
    Update(Arithmetic, Place, Box<Expr>),
    /// `++` and `--` behind what is assigned, which add 1 or take it away
    After(Arithmetic, Place),
    /// a call of a function, by its number from 0 in the order of the text: the arguments of its scalar parameters, and those of its arrays, each in their order
    Call(usize, Vec<Expr>, Vec<Array>),
    /// a number of bytes of a text from a place on: `substr` with three arguments
    Substr(Box<Expr>, Box<Expr>, Box<Expr>),
    /// `match`: the place where the first match stands in the left text of the expression that the right text is
    Match(Box<Expr>, Box<Expr>),
    /// `sub` and `gsub`: the expression, the replacement, and the place whose text is changed
    Replace(Extent, Box<Expr>, Box<Expr>, Place),
    /// `split`: the text, the array that takes its parts, and the separator; how many parts there are
    Split(Separation, Box<Expr>, Array, Box<Expr>),
    /// `sprintf`: the format and its arguments
    Sprintf(Box<Expr>, Vec<Expr>),
    /// `getline`: the next record becomes `$0`; 1, or 0 where there is none
    Getline,
    /// `getline` of a place: the next record's text becomes its value; 1, or 0 where there is none
    GetlineTo(Place),
    /// `in`: whether an array has the element of these subscripts
    Has(Array, Vec<Expr>),
    /// `length` of an array: how many elements it has
    Count(Array),
}

/// A right operand, with its operator.
#[cycle(expressions)]
#[derive(Drop)]
pub enum Link {
    Combine(Joiner, Expr),
    /// `&&` and `||`
    Decide(Logic, Expr),
}

/// What can be read and assigned.
#[cycle(expressions)]
#[derive(Drop)]
pub enum Place {
    /// a global scalar, by its number from 0; the special variables but NF have the first numbers
    Global(usize),
    /// a local of the function around, by its number from 0: its parameters come first
    Local(usize),
    FieldCount,
    /// `$0` has the number 0
    Field(Box<Expr>),
    /// an element of an array, by its subscripts
    Element(Array, Vec<Expr>),
}

/// What a name alone stands for that is no array.
#[derive(Clone, Copy, PartialEq, Eq)]
pub enum Scalar {
    /// a global one, by its number from 0; the special variables but NF have the first numbers
    Global(usize),
    /// a local of the function around, by its number from 0: its parameters come first
    Local(usize),
    FieldCount,
}

/// A statement. Its number is the site of its point.
#[cycle(statements)]
#[derive(Drop)]
pub enum Stmt {
    Do(usize, Expr),
    /// a missing list is `$0`
    Print(usize, Vec<Expr>),
    /// one after another
    Block(Vec<Stmt>),
    /// the branches that `else if` joins, and what is done where none is taken; a missing `else` does nothing
    If(Vec<Branch>, Box<Stmt>),
    /// the condition with its site, and the body
    While(usize, Expr, Box<Stmt>),
    /// the body, and behind it the condition with its site
    DoWhile(Box<Stmt>, usize, Expr),
    /// the beginning, the condition with its site, the step and the body; a missing condition is the number 1, what else is missing does nothing
    For(Box<Stmt>, usize, Expr, Box<Stmt>, Box<Stmt>),
    Break(usize),
    Continue(usize),
    Next(usize),
    Exit(usize),
    /// with a status
    ExitWith(usize, Expr),
    Return(usize),
    /// with a value
    ReturnWith(usize, Expr),
    /// the format and its arguments
    Printf(usize, Expr, Vec<Expr>),
    /// an element of an array, by its subscripts, is deleted
    Delete(usize, Array, Vec<Expr>),
    /// all elements of an array are deleted
    Clear(usize, Array),
    /// a turn for each key of an array: the site of a turn, what takes the key, the array and the body
    ForIn(usize, Scalar, Array, Box<Stmt>),
}

/// A condition of an `if` with its site, and what is done where it holds.
#[cycle(statements)]
#[derive(Drop)]
pub struct Branch {
    pub site: usize,
    pub test: Expr,
    pub body: Stmt,
}

/// When a main rule runs.
#[derive(Drop)]
pub enum Guard {
    /// a missing pattern is the number 1
    When(Expr),
    /// a range, with the number of its flag from 0: from a record where the first holds up to one where the second does
    Between(usize, Expr, Expr),
}

/// A main rule, with the site of its test.
#[derive(Drop)]
pub struct Rule {
    pub site: usize,
    pub guard: Guard,
    pub action: Stmt,
}

/// A function: its name, the names of its parameters and what each is, the site of its entry and its body.
#[derive(Drop)]
pub struct Function {
    pub name: Bytes,
    pub parameters: Vec<Bytes>,
    pub kinds: Vec<Kind>,
    pub site: usize,
    pub body: Stmt,
}

/// What a global or a parameter is.
#[derive(Clone, Copy, PartialEq, Eq)]
pub enum Kind {
    Scalar,
    Array,
}

/// A program.
#[derive(Drop)]
pub struct Program {
    /// the names of the globals that are not special, in the order of their first appearance; where a name is an array's, the array has the name's number here
    pub names: Vec<Bytes>,
    /// what each of these is
    pub kinds: Vec<Kind>,
    /// in the order of the text; their numbers count from 0
    pub functions: Vec<Function>,
    /// how many ranges the main rules have
    pub ranges: usize,
    pub begin: Vec<Stmt>,
    pub rules: Vec<Rule>,
    pub end: Vec<Stmt>,
    /// the line of each site, counted from 1; sites are numbered in the order of the text
    pub lines: Vec<u64>,
}
