//! Numbers of arrival, which ascend.
ghost use Rattle.std.specs.Prelude.{◌≡◌, nat_lt, count_by};
ghost use Rattle.pol_model.specs.Ascending.{Ascends};

/// How many of the numbers are less.
pub(crate) fn count_less(numbers: &[u64], number: u64) -> usize
    requires { Ascends numbers.now }
    ensures { result ≡ count_by (λ n. nat_lt n number) numbers.now }
{
    numbers.partition_point(|n| *n < number)
}
