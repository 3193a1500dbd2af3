//! One loop for every kind of test.
ghost use Rattle.std.specs.Prelude.{◌≡◌, count_by};
ghost use Rattle.proof_forms.specs.Lists.{is_over};

/// A test of numbers, with its meaning as a ghost member.
pub trait NumberTest {
    ghost use Rattle.std.specs.Prelude.{ℕ, Bool};

    /// What the test says of a number.
    ghost says: { Self → ℕ → Bool };

    /// Whether a number passes.
    fn passes(&self, number: u32) -> bool
        ensures { result ≡ says self.now number };
}

/// How many numbers pass: the loop and its invariant know the meaning alone, and serve every test.
pub fn count_passing<T: NumberTest>(test: &T, numbers: &[u32]) -> usize
    ensures { result ≡ count_by (T.says test.now) numbers.now }
{
    let mut count = 0;
    for number in numbers {
        if test.passes(*number) {
            count += 1;
        }
    }
    count
}

/// The numbers over a limit.
#[derive(Clone, Copy, Drop)]
pub struct OverLimit {
    /// The limit.
    pub limit: u32,
}

impl NumberTest for OverLimit {
    ghost use Rattle.proof_forms.specs.Lists.{is_over};

    ghost says = { λ test number. is_over test.limit number };

    fn passes(&self, number: u32) -> bool {
        number > self.limit
    }
}

/// A caller of that loop: the meaning of its own test comes out.
pub fn count_over(numbers: &[u32], limit: u32) -> usize
    ensures { result ≡ count_by (is_over limit) numbers.now }
{
    count_passing(&OverLimit { limit }, numbers)
}
