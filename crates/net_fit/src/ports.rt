use fix_word::SigType;
use lists::List;

/// The types of a program's input words and output words.
#[derive(Drop)]
pub struct Ports {
    pub inputs: List<SigType>,
    pub outs: List<SigType>,
}
