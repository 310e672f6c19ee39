// Instructions that make a value of the values of their operands: the GENSCALAR family, the array operations, INDEX, SETORIGIN.
#![tactic(auto)]

pub mod arrays;
mod operand_values;
mod ravels;
mod results;
pub mod scalars;
pub mod subscripts;
