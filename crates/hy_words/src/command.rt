ghost use Rattle.std.specs.Prelude.{◌≡◌, map};
ghost use Rattle.hy_words.specs.Commands.{command_named, syntax_of};

/// A command of the program.
#[derive(Clone, Copy, Debug, PartialEq, Eq)]
pub enum Command {
    Exec,
    Compile,
    Run,
    Check,
    Plain,
    Gen,
    Migrate,
    Import,
    Export,
    Begin,
    Turn,
    Log,
    Confirm,
}

impl Command {
    /// The command that the word `name` names.
    pub fn named(name: &str) -> Option<Command>
        ensures { result ≡ command_named name.now }
    {
        match name {
            "exec" => Some(Command::Exec),
            "compile" => Some(Command::Compile),
            "run" => Some(Command::Run),
            "check" => Some(Command::Check),
            "plain" => Some(Command::Plain),
            "gen" => Some(Command::Gen),
            "migrate" => Some(Command::Migrate),
            "import" => Some(Command::Import),
            "export" => Some(Command::Export),
            "begin" => Some(Command::Begin),
            "turn" => Some(Command::Turn),
            "log" => Some(Command::Log),
            "confirm" => Some(Command::Confirm),
            _ => None,
        }
    }

    /// The names of the command's positional words, in their order.
    pub fn positionals(self) -> &'static [&'static str]
        ensures { map (λ name. name.now) result.now ≡ (syntax_of self).positionals }
    {
        match self {
            Command::Exec => &["source", "a", "b", "table", "bundle"],
            Command::Compile => &["source", "table", "bundle"],
            Command::Run => &["bundle", "a", "b"],
            Command::Check => &["bundle"],
            Command::Plain => &["source", "a", "b"],
            Command::Gen => &["number", "source", "a", "b", "table", "bundle"],
            Command::Migrate => &["old", "new"],
            Command::Import => &["file", "table", "bundle"],
            Command::Export | Command::Log => &["bundle", "module", "file"],
            Command::Begin => &["role", "bundle", "own", "state", "outbox"],
            Command::Turn => &["state", "inbox", "outbox"],
            Command::Confirm => &["file"],
        }
    }

    /// The names of the command's options.
    pub fn options(self) -> &'static [&'static str]
        ensures { map (λ name. name.now) result.now ≡ (syntax_of self).options }
    {
        match self {
            Command::Exec => &["seed", "turns", "layers", "bound"],
            Command::Compile => &["layers", "bound"],
            Command::Run => &["seed", "turns"],
            Command::Plain => &["bound"],
            Command::Begin => &["seed"],
            Command::Check
            | Command::Gen
            | Command::Migrate
            | Command::Import
            | Command::Export
            | Command::Turn
            | Command::Log
            | Command::Confirm => &[],
        }
    }
}
