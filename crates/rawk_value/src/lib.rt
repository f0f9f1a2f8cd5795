//! Values of AWK over signed 64-bit whole numbers.
#![tactic(auto)]

pub mod arithmetic;
pub mod bytes;
pub mod fault;
pub mod number;
pub mod operator;
pub mod order;
pub mod scan;
pub mod text;
pub mod value;

pub use arithmetic::{add, combine, div, mul, neg, pow, rem, sub};
pub use bytes::Bytes;
pub use fault::Fault;
pub use number::{input_number, input_truth, int_of, number_of, truth_of};
pub use operator::{Arithmetic, Comparison};
pub use order::{compare, order_of};
pub use text::{push_number, push_text, text_of};
pub use value::Value;
