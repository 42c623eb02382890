//! What follows of a client's commands.
ghost use Rattle.mf_client.specs.Laws.{RunsOnce};

/// Where each file's whole state is told, the commands of a client that had their memory have one
/// outcome each, and leave the files in one state.
pub fn run_has_one_result()
    ensures { RunsOnce }
{}
