//! Rankings: which of two records may stand before the other in a list.
ghost use Rattle.std.specs.Prelude.{◌≡◌, Bool, true, false};
ghost use Rattle.rankings.specs.Ranked.{strictly, before};

use jobs::numbered::Numbered;

/// Says of two records whether the first may stand before the second.
pub trait Ranking {
    type Item: Numbered;

    ghost may: { Self → Self.Item → Self.Item → Bool };

    fn may_precede(&self, x: &Self::Item, y: &Self::Item) -> bool
        ensures { result ≡ may self.now x.now y.now };

    /// Whether `x` stands strictly before `y`: it may, and not the reverse.
    fn strictly_precedes(&self, x: &Self::Item, y: &Self::Item) -> bool
        ensures { result ≡ strictly (may self.now) x.now y.now }
    {
        self.may_precede(x, y) && !self.may_precede(y, x)
    }

    /// Whether `x` comes before `y`: strictly by the ranking or, where neither is strictly before, by the lower number.
    fn precedes(&self, x: &Self::Item, y: &Self::Item) -> bool
        ensures { result ≡ before (may self.now) Self.Item.Numbered.number x.now y.now }
    {
        let forth = self.may_precede(x, y);
        let back = self.may_precede(y, x);
        if forth == back {
            x.number() < y.number()
        } else {
            forth
        }
    }

    /// Of any two records at least one may stand before the other.
    ghost total: { (r : Self) (x y : Self.Item) → may r x y ≡ false → may r y x ≡ true };

    ghost transitive: { (r : Self) (x y z : Self.Item) → may r x y ≡ true → may r y z ≡ true → may r x z ≡ true };
}
