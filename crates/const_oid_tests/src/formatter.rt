//! What several tests share to print values: a formatter's target that takes one text alone and may fail a write.

use std::alloc::{AllocError, Global};
use std::fmt;
use std::fmt::{Debug, Display, Write};

/// Whether a value prints as this text, plain and under each option, alone and together.
pub fn prints<T: Display>(alloc: Global, value: &T, text: &str) -> Result<bool, AllocError> {
    let texts = format!(in alloc; "{text}|")?.repeat(alloc, 11)?;
    let mut target = OneText::of(texts.as_str());
    let written = write!(
        target,
        "{value}|{value:#}|{value:+}|{value:.3}|{value:20}|{value:30}|{value:030}|{value:<30}|{value:^30}|{value:*>60}|{value:*^+#80.1}|"
    );
    Ok(written.is_ok() && target.rest.is_empty())
}

/// Whether a value is printed as this text where no memory is at hand.
pub fn prints_as<T: Display>(value: &T, text: &str) -> bool {
    let mut target = OneText::of(text);
    write!(target, "{value}").is_ok() && target.rest.is_empty()
}

/// The number of writes that print a value as this text, or `None` if it is printed otherwise or
/// one of the writes fails and is not reported at once.
pub fn count_writes<T: Display>(value: &T, text: &str) -> Option<usize> {
    for writes in 0..1000 {
        let mut target = OneText::of(text);
        target.refused = writes + 1;
        if write!(target, "{value}").is_ok() {
            return (target.writes == writes && target.rest.is_empty()).then_some(writes);
        }
        if target.writes != target.refused {
            return None;
        }
    }
    None
}

/// Prints the Debug texts of a value under options.
#[derive(Drop)]
pub struct DebugTexts<T>(pub T);

impl<T: Debug> Display for DebugTexts<T> {
    fn fmt<W: Write>(&self, f: &mut fmt::Formatter<W>) -> fmt::Result {
        write!(f, "{:?}|{:#?}|{:30?}", self.0, self.0, self.0)
    }
}

/// Takes one text, in any number of writes, and nothing else. The write numbered `refused`, counted from 1, fails.
#[derive(Drop)]
struct OneText<'a> {
    rest: &'a [u8],
    writes: usize,
    refused: usize,
}

impl<'a> OneText<'a> {
    /// Fails no write.
    fn of(text: &'a str) -> Self {
        OneText {
            rest: text.as_bytes(),
            writes: 0,
            refused: 0,
        }
    }
}

impl Write for OneText<'_> {
    fn write_str(&mut self, text: &str) -> fmt::Result {
        self.writes = self.writes.saturating_add(1);
        if self.writes == self.refused {
            return Err(fmt::Error);
        }
        let rest = self.rest.strip_prefix(text.as_bytes());
        self.rest = rest.ok_or(fmt::Error)?;
        Ok(())
    }
}
