use crate::card::{Card, Scales};
use blocks::bound::Bound;
use blocks::rule::Rule;
use blocks::sink::Sink;
use blocks::slot::Slot;
use scales::refusal::Refusal;
use search::verdict::Verdict;
use sheet::draft::Draft;
use sheet::sheet::Sheet;

// What the engineer works on: the card, and the sheet of its settings with the makers' rules.
#[derive(Drop)]
pub(crate) struct Desk {
    pub(crate) card: Card,
    pub(crate) sheet: Sheet<Scales>,
}

impl Desk {
    // The card with the draft that it was declared on, closed: no setting more, and no rule yet.
    pub(crate) fn new(card: Card, draft: Draft) -> Desk {
        let sheet = draft.close();
        Desk { card, sheet }
    }

    // One rule more, of these bounds. Tells its number where it is admitted.
    pub(crate) fn post(&mut self, bounds: &[Bound]) -> Result<usize, Refusal> {
        let number = self.sheet.rules();
        self.sheet.post(&Rule { bounds })?;
        Ok(number)
    }

    // The search over the rules, with any sink. What is shown needs no more than the verdict, so this
    // hands on nothing of what `Sheet::solve` promises.
    pub(crate) fn search<K: Sink>(
        &self,
        area: &mut [Slot],
        sink: &mut K,
    ) -> Result<Verdict, Refusal> {
        self.sheet.solve(area, sink)
    }
}
