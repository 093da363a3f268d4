// Cursors over the powers of an element: each answers one power after another, and can skip some.
ghost use Rattle.std.specs.Prelude.{◌≡◌, ℕ, suc, ◌+◌, drop};
ghost use Rattle.std.specs.Iterator.{YieldsFirst, item_count};
ghost use Rattle.std.specs.List.{slice_get as item};
ghost use Rattle.fields.specs.Cursors.{power_ahead, remaining_powers};

use crate::field::Field;
use crate::powers::by_squaring;

/// All powers of an element, from some exponent on. They never end, so that `next` answers a power and no `Option`: this is
/// no `Iterator`.
#[derive(Drop)]
pub struct Powers<F> {
    pub(crate) base: F,
    pub(crate) next: F,
}

impl<F: Field> Powers<F> {
    /// The next power.
    pub fn next(&mut self) -> F
        ensures answer { result ≡ power_ahead F.field self.old 0 }
        ensures rest { (k : ℕ) → power_ahead F.field self.new k
            ≡ power_ahead F.field self.old (suc k) }
    {
        let power = self.next;
        self.next = power.mul(self.base);
        power
    }

    // Skips n powers.
    fn skip(&mut self, n: usize)
        ensures { (k : ℕ) → power_ahead F.field self.new k ≡ power_ahead F.field self.old (n + k) }
    {
        self.next = self.next.mul(by_squaring(self.base, n));
    }

    /// The power after n others, which are skipped.
    pub fn nth(&mut self, n: usize) -> F
        ensures answer { result ≡ power_ahead F.field self.old n }
        ensures rest { (k : ℕ) → power_ahead F.field self.new k
            ≡ power_ahead F.field self.old (n + suc k) }
    {
        self.skip(n);
        self.next()
    }
}

/// The powers of an element from one exponent to another.
#[derive(Drop)]
pub struct PowersRange<F> {
    pub(crate) powers: Powers<F>,
    /// How many come after the next one; none where that does not come either.
    pub(crate) after: Option<usize>,
}

impl<F: Field> Iterator for PowersRange<F> {
    type Item = F;

    ghost next_gives = { YieldsFirst (remaining_powers F.field) };

    ghost remaining = { item_count (remaining_powers F.field) };

    fn next(&mut self) -> Option<F> {
        let after = self.after?;
        self.after = after.checked_sub(1);
        Some(self.powers.next())
    }
}

impl<F: Field> PowersRange<F> {
    /// The power after n others, which are skipped; none past the last. Unlike an iterator's own `nth`, it takes no step
    /// for each of them.
    pub fn nth(&mut self, n: usize) -> Option<F>
        ensures answer { result ≡ item (remaining_powers F.field self.old) n }
        ensures rest { remaining_powers F.field self.new
            ≡ drop (n + 1) (remaining_powers F.field self.old) }
    {
        self.after = self.after?.checked_sub(n);
        self.powers.skip(n);
        self.next()
    }
}
