// The console's lines: the words of one that is read, and answers put into a buffer.
//
// A part of the program `console`: its functions are proved to be safe and to end, and what they make is tested with the program.
#![tactic(auto)]

pub mod buffers;
pub mod bytes;
pub mod fault;
pub mod shown;
pub mod words;
