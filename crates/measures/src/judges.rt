//! Judges: measures that say whether some, or all, of the words that a value stands for are good.
ghost use Rattle.std.specs.Prelude.{◌≡◌, Bool, ◌&&◌, ◌||◌};
ghost use Rattle.measures.specs.Judges.{Judges};
ghost use Rattle.measures.specs.Laws.{MarksJudged};
ghost use Rattle.measures.specs.Words.{Word};

use super::Measure;

/// A judge: a measure that says of each value whether some, and whether all, of the words that it stands for are good.
pub trait Judge: Measure {
    // the words that it means
    ghost good: { Self → Word → Type 0 };

    // its two answers
    ghost some_of: { Self → Self.Value → Bool };

    ghost all_of: { Self → Self.Value → Bool };

    /// Whether some word that v stands for is good.
    fn some(&self, v: Self::Value) -> bool
        ensures answer { result ≡ some_of self.now v }
        ensures judges { Judges ◌||◌ (Self.Measure.meaning self.now) (Self.Measure.admits self.now)
            (some_of self.now) (good self.now) };

    /// Whether each word that v stands for is good.
    fn all(&self, v: Self::Value) -> bool
        ensures answer { result ≡ all_of self.now v }
        ensures judges { Judges ◌&&◌ (Self.Measure.meaning self.now) (Self.Measure.admits self.now)
            (all_of self.now) (good self.now) };
}

/// What a judge says of a value: whether some, and whether all, of the words that it stands for are good.
#[derive(Clone, Copy, PartialEq, Eq, Debug)]
pub struct Verdict {
    pub some: bool,
    pub all: bool,
}

/// A value, and what a judge says of it.
#[derive(Clone, Copy, PartialEq, Eq, Debug)]
pub struct JudgedValue<V> {
    pub value: V,
    pub verdict: Verdict,
}

/// The verdict on the words that v stands for. Of the value of an accepted mark in any run of a board it says whether a longest flow that ends
/// there is good, and whether each is (`flows`).
pub fn verdicts<J: Judge>(j: &J, v: J::Value) -> Verdict
    ensures some { result.some ≡ J.Judge.some_of j.now v }
    ensures all { result.all ≡ J.Judge.all_of j.now v }
    ensures flows { MarksJudged (J.Measure.meaning j.now)
        (J.Judge.some_of j.now) (J.Judge.all_of j.now) (J.Judge.good j.now) }
{
    let some = j.some(v);
    let all = j.all(v);
    Verdict { some, all }
}
