//! Lists whose elements are in ascending order of a number that each has.
ghost use Rattle.std.specs.Prelude.{◌≡◌, ℕ};
ghost use Rattle.lp_base.specs.Ascending.{ascends_by, number_of};

/// What has a number by which lists of it are ordered.
pub trait Numbered {
    ghost number: { Self → ℕ };

    /// Its number.
    fn number(&self) -> u32
        ensures { result ≡ number self.now };
}

impl Numbered for (u32, i64) {
    ghost number = { number_of };

    fn number(&self) -> u32 {
        self.0
    }
}

/// Whether the numbers ascend strictly, so that none stands twice. It takes no memory.
pub fn is_ascending<T: Numbered>(list: &[T]) -> bool
    ensures { result ≡ ascends_by T.number list.now }
{
    for i in 1..list.len() {
        if list[i - 1].number() >= list[i].number() {
            return false;
        }
    }
    true
}
