// The answers that are kept, one for each binding, in a lent buffer: there is no heap.
ghost use Rattle.std.specs.Prelude.{◌≡◌, cond, suc, ◌<◌, length, get_or, set};
ghost use Rattle.faults.specs.Kept.{Latest, Fresh, SameAnswers, answer_kept};

use view::word_in;

// `number` says for which question an answer is kept, and that it is no; one more says that it is yes. That there is one more is asked where
// answers are kept: as an invariant it would be asked of `raise` and of who makes a `Kept`, which asked nothing.
#[derive(Drop)]
pub struct Kept<'a> {
    pub answers: &'a mut [u32],
    pub number: u32,
}

impl Kept<'_> {
    // Nothing is kept yet.
    pub fn new(answers: &mut [u32]) -> Kept<'_>
        ensures fresh { Fresh result.number result.answers.now }
        ensures buffer { result.answers.ghost_name ≡ answers.entry.ghost_name }
        ensures size { length result.answers.now ≡ length answers.old }
    {
        answers.fill(0);
        Kept { answers, number: 2 }
    }

    // A number for which nothing is kept yet. Each is two more than the last, since the one between says that the answer is yes.
    pub fn raise(&mut self)
        ensures fresh { Latest self.old.number self.old.answers.now → Fresh self.new.number self.new.answers.now }
        ensures same { SameAnswers self.old self.new }
    {
        if self.number < 4294967292 {
            self.number += 2;
            return;
        }
        self.answers.fill(0);
        self.number = 2;
    }

    // The answer for binding b, if one is kept for this question. What has no place reads as 0, which is no answer: numbers begin at 2.
    #[tactic(auto, using(crate::proofs::ExprLaws::kept_no, crate::proofs::ExprLaws::kept_yes, crate::proofs::ExprLaws::kept_none))]
    pub(super) fn answer(&self, b: usize) -> Option<bool>
        ensures { result ≡ answer_kept self.now.number (get_or self.now.answers.now b 0) }
    {
        match word_in(self.answers, b).checked_sub(self.number) {
            Some(0) => Some(false),
            Some(1) => Some(true),
            _ => None,
        }
    }

    // The answer for binding b is kept, if it has a place. By an index: `get_mut` was tried, and after it nothing is known of the whole slice.
    pub(super) fn keep(&mut self, b: usize, yes: bool)
        requires { self.old.number < 4294967295 }
        ensures number { self.new.number ≡ self.old.number }
        ensures answers { self.new.answers.now ≡ set self.old.answers.now b (cond yes (suc self.old.number) self.old.number) }
        ensures same { SameAnswers self.old self.new }
    {
        if b < self.answers.len() {
            self.answers[b] = self.number + u32::from(yes);
        }
    }
}
