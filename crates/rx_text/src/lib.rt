//! Numbers and paths as bytes: each has one spelling, which is appended to a text, and a number that was written is scanned
//! back. It stands on rx_base and on `itoa`. The layers above use that a number or path that was appended is `number_text`,
//! `natural_text` or `path_text` of it, that `scan_num` answers exactly what stands (`StandsAt`), and the laws that no two
//! numbers or paths share a text.
#![tactic(auto)]

mod laws;
mod numbers;
mod paths;
mod scan;

pub use laws::{
    naturals_have_one_text, numbers_have_one_text, paths_have_one_text, written_numbers_stand,
};
pub use numbers::{push_bytes, push_natural, push_num, put_natural, put_num, put_text};
pub use paths::put_path;
pub use scan::scan_num;
