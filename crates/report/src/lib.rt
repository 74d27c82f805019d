// What the programs print for an answer, a verdict and an image that was read, as bytes. The definitions are in specs; `answer_report`, `psn_report` and
// `verdict_report` have the functions.
#![tactic(auto)]

use texts::Text;

// Whether what was made is to be kept, and what is printed.
#[derive(Clone, Copy)]
pub struct Said {
    pub keep: bool,
    pub text: Text,
}
