// Requests to a book of any make and their replies, and the numbers that the operands of a command stand for.
#![tactic(auto)]

pub mod number;
pub mod operand;
pub mod request;
