// What the query program prints for its input, as a function from bytes to bytes; the program reads and writes, and does no more.
#![tactic(auto)]

pub mod split; // split.rt: the input's parts
pub mod put; // put.rt: bytes, numbers and words put behind each other
pub mod lines; // lines.rt: the lines that are printed
pub mod print; // print.rt: the whole text for an input
