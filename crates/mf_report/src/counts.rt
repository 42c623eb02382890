//! Counts of chunk operations, added up.

ghost use Rattle.std.specs.Prelude.{◌≡◌};
ghost use Rattle.mf_report.specs.Counts.{total_io, SumsFit};

use mf_vault::Io;

/// The sums of these counts, kind by kind.
pub fn total(ios: &[Io]) -> Io
    requires { SumsFit ios.now }
    ensures { result ≡ total_io ios.now }
{
    let mut sum = Io::default();
    for io in ios {
        sum = sum.plus(*io);
    }
    sum
}
