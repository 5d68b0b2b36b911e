// The rows of a capture, and the capture's bytes: corner rows, flat rows, ridge rows and a trailer.
#![tactic(auto)]

mod bytes;
mod counts;
mod decode;
mod encode;
mod layout;
mod ridge;
mod row;
mod table;
mod tables;
mod trailer;

pub use counts::Counts;
pub use decode::LONGEST;
pub use encode::rows_come_back;
pub use ridge::RidgeRow;
pub use tables::Tables;
