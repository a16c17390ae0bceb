// Expressions where they stand in the working form of plans (crate cells).
#![tactic(auto)]

ghost use Rattle.std.specs.Prelude.{◌≡◌, ◌+◌, ◌-◌, ◌≤◌, ◌<◌, length};
ghost use Rattle.cells.specs.Cells.{cell_words, cell_at, tag_at, origin_at, start_at};
ghost use Rattle.words.specs.Place.{ExpressionAt, own};

use cells::Cell;

// An expression where it stands in the working form: its own words alone, of which the last are its own cell, behind its operands. Which expression it is, isn't
// said; that there is one, each function that makes such a value proves. Two words go in registers: with a longer slice and two positions, functions that call
// themselves had frames too large for the deepest sheets.
#[derive(Clone, Copy)]
pub struct Expression<'a> {
    pub words: &'a [u32],
    pub ghost stands: { ∥ ExpressionAt words.now 0 (length words.now) ∥₁ },
}

impl<'a> Expression<'a> {
    // Its own cell.
    pub fn cell(self) -> Cell
        ensures { result ≡ cell_at self.entry.words.now (length self.entry.words.now) }
    {
        cells::cell_at(self.words, self.words.len())
    }

    pub fn tag(self) -> u32
        ensures { result ≡ tag_at self.entry.words.now (length self.entry.words.now) }
    {
        cells::tag_at(self.words, self.words.len())
    }

    pub fn origin(self) -> u32
        ensures { result ≡ origin_at self.entry.words.now (length self.entry.words.now) }
    {
        cells::origin_at(self.words, self.words.len())
    }

    // The operand of an operator of one.
    pub fn operand(self) -> Expression<'a>
        requires { 30 ≤ tag_at self.words.now (length self.words.now) }
        ensures words { result.words.now ≡ own self.entry.words.now 0 (length self.entry.words.now - cell_words) }
        ensures size { length result.words.now + cell_words ≡ length self.entry.words.now }
    {
        Expression {
            words: &self.words[..self.words.len() - cells::CELL_WORDS],
        }
    }

    // The operands of an operator of two.
    pub fn operands(self) -> (Expression<'a>, Expression<'a>)
        requires { (10 ≤ tag_at self.words.now (length self.words.now)) × (tag_at self.words.now (length self.words.now) < 30) }
        ensures left { result.0.words.now ≡ own self.entry.words.now 0 (start_at self.entry.words.now (length self.entry.words.now - cell_words)) }
        ensures right { result.1.words.now ≡ own self.entry.words.now (start_at self.entry.words.now (length self.entry.words.now - cell_words)) (length self.entry.words.now - cell_words) }
        ensures size { length result.0.words.now + length result.1.words.now + cell_words ≡ length self.entry.words.now }
    {
        let end = self.words.len() - cells::CELL_WORDS;
        let mid = cells::start(self.words, end);
        let left = Expression {
            words: &self.words[..mid],
        };
        let right = Expression {
            words: &self.words[mid..end],
        };
        (left, right)
    }
}
