// How many objects each storage home has of its own.
ghost use Rattle.std.specs.Prelude.{◌≡◌, ◌<◌, ◌≤◌, length};
ghost use Rattle.storage_home.specs.Counts.{number_at, number_of, IsRaised};

use type_layout::HomeNo;

// The number of a home, 0 where it is not there.
fn count_of(counts: &[u64], home: HomeNo) -> u64
    ensures { result ≡ number_at counts.now home.0 }
{
    if home.0 == 0 {
        return 0;
    }
    match counts.get(home.0 as usize - 1) {
        Some(count) => *count,
        None => 0,
    }
}

/// The numbers of these homes together.
pub fn sum_of(counts: &[u64], homes: &[HomeNo]) -> u64
    requires { number_of counts.now homes.now ≤ 18446744073709551615 }
    ensures { result ≡ number_of counts.now homes.now }
{
    let mut sum = 0;
    for home in homes {
        sum += count_of(counts, *home);
    }
    sum
}

/// Counts one more object of a home.
pub fn raise(counts: &mut [u64], home: HomeNo)
    requires some { 0 < home.0 }
    requires there { home.0 ≤ length counts.old }
    requires fits { number_at counts.old home.0 < 18446744073709551615 }
    ensures { IsRaised counts.old counts.new home.0 }
{
    counts[home.0 as usize - 1] += 1;
}

/// Counts one object of a home less.
pub fn lower(counts: &mut [u64], home: HomeNo)
    requires there { home.0 ≤ length counts.old }
    requires some { 0 < number_at counts.old home.0 }
    ensures { IsRaised counts.new counts.old home.0 }
{
    counts[home.0 as usize - 1] -= 1;
}
