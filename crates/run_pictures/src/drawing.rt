//! A picture or a page while it is drawn.
use crate::failure::Failure;
use std::alloc::{AllocError, Global};
use std::fmt::Write;

/// The text of a picture or a page. Where memory for a piece is refused it is left out, and `finish` says
/// so at the end.
#[derive(Drop)]
pub(crate) struct Drawing {
    text: String,
    is_cut: bool,
}

impl Drawing {
    pub(crate) fn new(alloc: Global) -> Drawing {
        Drawing {
            text: String::new(alloc),
            is_cut: false,
        }
    }

    /// What was drawn. `OutOfMemory` where a piece was left out.
    pub(crate) fn finish(self) -> Result<String, Failure> {
        if self.is_cut {
            return Err(Failure::OutOfMemory(AllocError));
        }
        Ok(self.text)
    }

    pub(crate) fn as_str(&self) -> &str {
        self.text.as_str()
    }

    /// How many bytes were drawn.
    pub(crate) fn len(&self) -> usize {
        self.text.len()
    }

    /// A part of this one is what the other says, which may lack a piece.
    pub(crate) fn takes(&mut self, said: &Drawing) {
        self.is_cut = self.is_cut || said.is_cut;
    }

    pub(crate) fn text(&mut self, text: &str) {
        let refused = self.text.push_str(text).is_err();
        self.is_cut = self.is_cut || refused;
    }

    pub(crate) fn sign(&mut self, sign: char) {
        let refused = self.text.push(sign).is_err();
        self.is_cut = self.is_cut || refused;
    }

    pub(crate) fn value(&mut self, value: u64) {
        let refused = write!(self.text, "{value}").is_err();
        self.is_cut = self.is_cut || refused;
    }

    pub(crate) fn number(&mut self, number: usize) {
        self.value(number as u64);
    }

    /// A number between two texts.
    pub(crate) fn counted(&mut self, before: &str, number: usize, after: &str) {
        self.text(before);
        self.number(number);
        self.text(after);
    }

    /// The number of the command at a position, behind a text.
    pub(crate) fn command(&mut self, before: &str, at: usize) {
        self.counted(before, at.saturating_add(1), "");
    }

    /// A text with the signs replaced that mean something in a picture or a page.
    pub(crate) fn escaped(&mut self, text: &str) {
        for sign in text.chars() {
            match sign {
                '<' => self.text("&lt;"),
                '>' => self.text("&gt;"),
                '&' => self.text("&amp;"),
                '"' => self.text("&quot;"),
                other => self.sign(other),
            }
        }
    }

    /// What a shape is said to be: ` name="value"`.
    pub(crate) fn word(&mut self, name: &str, value: &str) {
        self.text(" ");
        self.text(name);
        self.text("=\"");
        self.text(value);
        self.text("\"");
    }

    /// The same of a number.
    pub(crate) fn attribute(&mut self, name: &str, value: usize) {
        self.text(" ");
        self.text(name);
        self.counted("=\"", value, "\"");
    }

    /// That a shape is moved there, except for the last quotation mark.
    pub(crate) fn moved(&mut self, x: usize, y: usize) {
        self.counted(" transform=\"translate(", x, " ");
        self.counted("", y, ")");
    }
}
