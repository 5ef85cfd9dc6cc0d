// The rows of the dictionary, each SPN of 002 with its width, and the rule that they keep: definitions and one computed test over all rows. The code's table of the
// same rows is the crate rows'.
#![tactic(auto)]

// A row: an SPN, and the width of its parameter in bits.
#[derive(Clone, Copy)]
pub struct Row {
    pub spn: u16,
    pub width: u16,
}
