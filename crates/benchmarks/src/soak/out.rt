//! What is printed, kept as one text: where memory for it runs out it is cut, and the judge sees that.

use dfr_channels::Rule;
use std::alloc::Global;
use std::fmt::Debug;

#[derive(Drop)]
pub struct Out {
    pub text: String,
}

impl Out {
    pub fn new(alloc: Global) -> Out {
        Out {
            text: String::new(alloc),
        }
    }

    pub fn put(&mut self, text: &str) {
        let _put = self.text.push_str(text).is_ok();
    }

    /// A word and a number.
    pub fn item(&mut self, word: &str, n: u64) {
        let _put = write!(self.text, "{word}{n}").is_ok();
    }

    /// What `{:?}` says of it.
    pub fn debug<T: Debug + Drop>(&mut self, it: T) {
        let _put = write!(self.text, "{it:?}").is_ok();
    }

    fn rule(&mut self, rule: Rule) {
        let put = match rule {
            Rule::Level {
                channel,
                over,
                threshold,
            } => {
                let side = if over { "over" } else { "under" };
                write!(self.text, "level {channel} {side} {threshold};")
            }
            Rule::Edge { channel, rise } => {
                let turn = if rise { "rise" } else { "fall" };
                write!(self.text, "edge {channel} {turn};")
            }
        };
        let _put = put.is_ok();
    }

    pub fn rules(&mut self, list: &[Rule]) {
        self.put("[");
        for rule in list {
            self.rule(*rule);
        }
        self.put("]");
    }
}
