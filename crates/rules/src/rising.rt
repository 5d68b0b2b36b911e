// Rows that rise strictly.
ghost use Rattle.std.specs.Prelude.{◌≡◌};
ghost use Rattle.std.specs.Ordering.{partial_lt};
ghost use Rattle.rules.specs.Tests.{each_next};

// Whether each row is less than the next.
pub(crate) fn rise<T: PartialOrd>(rows: &[T]) -> bool
    ensures { result ≡ each_next (partial_lt T.partial_cmp) rows.now }
{
    rows.is_sorted_by(|a, b| a < b)
}
