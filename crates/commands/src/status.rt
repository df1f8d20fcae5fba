ghost use Rattle.std.specs.Prelude.{◌≡◌};
ghost use Rattle.commands.specs.Statuses.{code_of};

/// How a run of the program ended.
#[derive(Clone, Copy, Debug, PartialEq, Eq)]
pub enum Status {
    /// What the words ask for was done.
    Done = 0,
    /// The words make no sense.
    Usage = 1,
    /// The input was refused.
    Refused = 2,
    /// There is no plan.
    NoPlan = 3,
    /// The budget of nodes ended before a plan was found.
    Budget = 4,
    /// A device's report came outside its window, or none came in it.
    PlanFailed = 5,
    /// The input couldn't be read.
    ReadFault = 6,
    /// The output couldn't be written.
    WriteFault = 7,
    /// Memory was wanted.
    NoMemory = 8,
    /// A device failed.
    DeviceFault = 9,
    /// The plan was refused.
    PlanRefused = 11,
}

impl Status {
    /// The program's exit status.
    pub fn code(self) -> u8
        ensures { result ≡ code_of self }
    {
        self as u8
    }
}
