/// Whether memory is refused to a connection, a port or a segment that needs it: never, or once.
#[derive(Debug, Clone, Copy, PartialEq, Eq)]
pub struct Memory {
    // How often it is granted before it is refused; nothing where it isn't refused any more.
    granted: Option<usize>,
    // How often it was asked for.
    questions: usize,
}

impl Memory {
    /// It is never refused.
    pub fn ample() -> Memory {
        Memory {
            granted: None,
            questions: 0,
        }
    }

    /// It is granted so often, then refused once, and granted ever after.
    pub fn refused_after(count: usize) -> Memory {
        Memory {
            granted: Some(count),
            questions: 0,
        }
    }

    pub(crate) fn questions(&self) -> usize {
        self.questions
    }

    // Whether it is refused this time.
    pub(crate) fn refuses(&mut self) -> bool {
        self.questions = self.questions.saturating_add(1);
        match self.granted {
            None => false,
            Some(0) => {
                self.granted = None;
                true
            }
            Some(count) => {
                self.granted = Some(count - 1);
                false
            }
        }
    }
}
