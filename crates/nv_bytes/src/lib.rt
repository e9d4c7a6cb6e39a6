//! Bytes and texts: little-endian fields, and what the text formats share: lines, fields, statements with labels, names, tables of words, numbers.
//! Types: `Lines`, `Line`, `Names`. Functions on bytes: `u16_at`, `u32_at`, `u64_at`, `put_u32`, `put_u64`.
//! Proved: a field read is the number of its bytes, the least first; a field put is the whole list with these bytes in it. Each
//! line comes once, in order, with how many are before it; fields, words and operands are their definitions; numbers and
//! hexadecimal texts are read and written exactly.
#![tactic(auto)]

mod fields;
mod lines;
mod little_endian;
mod names;
mod numbers;
mod tables;
mod words;

pub use fields::{cut, split_field};
pub use lines::{Lines, line_number};
pub use little_endian::{put_u32, put_u64, u16_at, u32_at, u64_at};
pub use names::Names;
pub use numbers::{decimal, hex_pair, number, unhex};
pub use tables::{find, is};
pub use words::{Line, is_name, line_of, operands, trim};
