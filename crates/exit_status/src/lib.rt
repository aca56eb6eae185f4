// The exit status of the command `rehearse`. A script acts on it, so the status of a verdict has a contract.
#![tactic(auto)]

ghost use Rattle.std.specs.Prelude.{◌≡◌};
ghost use Rattle.exit_status.specs.Status.{number_of, status_of, ZeroSaysPass};

use verdict::Verdict;

// The statuses, the least of them first.
#[derive(Clone, Copy, Debug, PartialEq, Eq, PartialOrd, Ord)]
pub enum ExitStatus {
    Passed = 0,
    Failed = 1,
    // The words are not accepted.
    NotAccepted = 2,
    // There was no run: the calls refused it.
    NoRun = 3,
}

impl ExitStatus {
    // The number that the process ends with.
    pub fn number(self) -> u64
        ensures { result ≡ number_of self }
    {
        self as u64
    }
}

// The status of a verdict.
pub fn of_verdict(verdict: Verdict) -> ExitStatus
    ensures { number_of result ≡ status_of verdict }
{
    match verdict {
        Verdict::Pass => ExitStatus::Passed,
        Verdict::NothingReturned => ExitStatus::Failed,
        Verdict::TooManyLost(_, _) => ExitStatus::Failed,
        Verdict::TooManyInARow(_, _) => ExitStatus::Failed,
        Verdict::OutageTooLong(_, _) => ExitStatus::Failed,
        Verdict::ErrorIndicated(_) => ExitStatus::Failed,
    }
}

// Carries that status 0 says PASS, and that nothing else does.
pub fn zero_says_pass()
    ensures { ZeroSaysPass }
{}
