//! Whether an image is one of a datapath: of its units and buses, in its period, with no wider words.
#![tactic(auto)]

mod fit;
mod starts;
mod unfit;
mod units;
mod words;

pub use fit::check_fit;
pub use unfit::Unfit;
