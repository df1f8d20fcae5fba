ghost use Rattle.std.specs.Prelude.{◌≡◌};
ghost use Rattle.command_line.specs.Words.{command_of};

/// What the program is to do.
#[derive(Clone, Copy, Debug, PartialEq, Eq)]
pub enum Command {
    /// Prints a mission in its canonical form.
    Print,
    /// Plans the first horizon.
    Plan,
    /// Checks a plan.
    Check,
    /// Prints the network that a plan is dispatched by.
    Net,
    /// Runs a mission in simulated time.
    Sim,
    /// Makes a mission of a given size and runs it in simulated time.
    Drill,
    /// Flies a mission against the clock.
    Fly,
}

impl Command {
    /// The command of this name.
    pub(crate) fn named(name: &str) -> Option<Command>
        ensures { result ≡ command_of name.now }
    {
        match name {
            "print" => Some(Command::Print),
            "plan" => Some(Command::Plan),
            "check" => Some(Command::Check),
            "net" => Some(Command::Net),
            "sim" => Some(Command::Sim),
            "drill" => Some(Command::Drill),
            "fly" => Some(Command::Fly),
            _ => None,
        }
    }
}

/// What the program's words ask for. A command ignores the options that it has no use for.
#[derive(Clone, Copy, Debug, PartialEq, Eq)]
pub struct Request {
    pub command: Command,
    /// How many search nodes an attempt to plan may take: 1 to 1,000,000.
    pub budget: u64,
    /// What the choices of a simulated run are drawn from, if they are drawn.
    pub seed: Option<u64>,
    /// How many horizons a drill has: 1 to 1,000.
    pub size: u32,
}
