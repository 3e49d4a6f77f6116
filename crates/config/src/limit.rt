// One limit: none, or a number.
ghost use Rattle.std.specs.Prelude.{◌≡◌};
ghost use Rattle.config.specs.Limits.{above, reached, limit_of};

// The number that stands for no limit where a caller passes limits as numbers.
pub const NO_LIMIT: usize = usize::MAX;

// A limit from a number, of which `NO_LIMIT` stands for none. Refuses nothing.
// 64 gives a limit of 64; 18,446,744,073,709,551,615 gives none.
pub fn from_number(n: usize) -> Option<usize>
    ensures { result ≡ limit_of n }
{
    (n != NO_LIMIT).then_some(n)
}

// Whether a size is too great: one that equals its limit passes. Refuses nothing; callers give 7, 8, 9, 18 or 19.
// At a limit of 4, 4 gives false and 5 gives true; with no limit every size gives false.
pub fn exceeded(limit: Option<usize>, n: usize) -> bool
    ensures { result ≡ above n limit }
{
    limit.is_some_and(|most| most < n)
}

// Whether a depth leaves room for no further one. Refuses nothing; callers give 11.
// At a limit of 64, 63 gives false and 64 gives true; with no limit every depth gives false.
pub fn reached(limit: Option<usize>, n: usize) -> bool
    ensures { result ≡ reached n limit }
{
    limit.is_some_and(|most| most <= n)
}
