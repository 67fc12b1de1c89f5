//! The laws of this crate. There is nothing to run here: a function's contract is its law.

ghost use Rattle.claims.specs.Runs.{NoneDeletes, RunsExist};

/// There are runs of which the claim about flows speaks: for each schedule that a new port accepts and that keeps the
/// class apart, all flows whose frames the port takes into the class, and as many frames as come while its clock goes.
pub fn runs_exist()
    ensures { RunsExist }
{}

/// No run of which the claim speaks begins with a deletion.
pub fn none_deletes()
    ensures { NoneDeletes }
{}
