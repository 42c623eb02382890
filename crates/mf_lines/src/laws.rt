//! Laws of lines.

ghost use Rattle.mf_lines.specs.Keeps.{LinesKeep};
ghost use Rattle.mf_lines.specs.FaultTable.{FaultsInOrder};

/// Each line that has a form keeps the limits of its kind, and a sweep stands behind a policy.
pub fn lines_keep()
    ensures { LinesKeep }
{}

/// A line's fault is the first kind that comes, in the order of the table of faults. A line in
/// which none comes has a form.
pub fn faults_in_order()
    ensures { FaultsInOrder }
{}
