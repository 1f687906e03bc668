//! Equal outcomes in a row are written once.
use crate::broken::Broken;
use std::alloc::Global;

/// What was written so far, and the outcome that is not written yet, with the first and the last number that have it.
#[derive(Drop)]
pub(crate) struct Runs {
    text: String,
    last: Option<(u64, u64, String)>,
}

fn write(
    alloc: Global,
    text: &mut String,
    from: u64,
    till: u64,
    outcome: &str,
) -> Result<(), Broken> {
    let more = if from == till {
        format!(in alloc; "{from}: {outcome}")?
    } else {
        format!(in alloc; "{from}-{till}: {outcome}")?
    };
    if !text.is_empty() {
        text.push_str("; ")?;
    }
    text.push_str(more.as_str())?;
    Ok(())
}

impl Runs {
    pub(crate) fn new(alloc: Global) -> Runs {
        Runs {
            text: String::new(alloc),
            last: None,
        }
    }

    /// One more outcome, of that number.
    pub(crate) fn add(
        &mut self,
        alloc: Global,
        number: u64,
        outcome: String,
    ) -> Result<(), Broken> {
        match self.last.take() {
            Some((from, till, before)) => {
                if before.as_str() == outcome.as_str() {
                    self.last = Some((from, number, before));
                } else {
                    write(alloc, &mut self.text, from, till, before.as_str())?;
                    self.last = Some((number, number, outcome));
                }
            },
            None => {
                self.last = Some((number, number, outcome));
            },
        }
        Ok(())
    }

    /// All that was added.
    pub(crate) fn end(self, alloc: Global) -> Result<String, Broken> {
        let Runs { text, last } = self;
        let mut text = text;
        if let Some((from, till, outcome)) = last {
            write(alloc, &mut text, from, till, outcome.as_str())?;
        }
        Ok(text)
    }
}
