// A reader: the text of a listing, and the place that it has reached. Its functions are thin, over those of `lines`.
ghost use Rattle.std.specs.Prelude.{◌≡◌, ◌≤◌, [], ◌↔◌, IsTrue, length};
ghost use Rattle.form.specs.Form.{read_settled, read_arrivals};
ghost use Rattle.form.specs.Found.{settled_values, arrival_values, Answers};

use crate::lines;
use crate::values::{ArrivalLines, SettledLines};

// The text that is left, from the place on, is `left`.
#[derive(Clone, Copy)]
pub struct Reader<'a> {
    pub text: &'a [u8],
    pub at: usize,
    pub ghost within: { at ≤ length text.now },
}

impl<'a> Reader<'a> {
    ghost use Rattle.form.specs.Left.{left};

    // At the start of a text.
    pub fn new(text: &'a [u8]) -> Reader<'a>
        ensures begun { (result.text ≡ text.entry) × (result.at ≡ 0) }
        ensures whole { left result ≡ text.now }
    {
        Reader { text, at: 0 }
    }

    // The lines that an install settled. The reader goes on behind them; where they are not in their form, it stays.
    pub fn settled(&mut self) -> Option<SettledLines<'a>>
        ensures found { Answers settled_values read_settled (left self.old) result (left self.new) }
        ensures same { self.new.text.now ≡ self.old.text.now }
    {
        let text = self.text;
        let (settled, rest) = lines::settled_lines(&text[self.at..])?;
        self.at = text.len() - rest.len();
        Some(settled)
    }

    // The lines by the arrivals, likewise.
    pub fn arrivals(&mut self) -> Option<ArrivalLines<'a>>
        ensures found { Answers arrival_values read_arrivals (left self.old) result (left self.new) }
        ensures same { self.new.text.now ≡ self.old.text.now }
    {
        let text = self.text;
        let (arrivals, rest) = lines::arrival_lines(&text[self.at..])?;
        self.at = text.len() - rest.len();
        Some(arrivals)
    }

    // Whether nothing is left.
    pub fn is_at_end(&self) -> bool
        ensures { IsTrue result ↔ (left self.now ≡ []) }
    {
        self.at == self.text.len()
    }
}
