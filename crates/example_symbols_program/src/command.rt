//! The commands of the program.
ghost use Rattle.std.specs.Prelude.{IfSome, ◌≡◌, ◌≤◌};
ghost use Rattle.example_symbols_program.specs.{command_of, least_count};

/// The text that `--help` prints.
pub const USAGE: &str = "usage: symbols COMMAND

  write TABLE INDEX    reads lines of nm from standard input, and writes a table of their names
                       and an index of their addresses
  get TABLE [NAME ..]  prints the address of each name, or 'none'; without names, of each line of
                       standard input
  list INDEX           prints the addresses and their names in ascending order of address
  all TABLE INDEX      does the same as write, and then prints the address of each name, the index,
                       and the error of the table without its last byte
  -h, --help           prints this text

exit status: 0 if each name is found or none is looked up, 1 if a name isn't found, 2 if the command
line isn't one of these, 3 if there is another error";

/// A command, without its arguments.
#[derive(Clone, Copy, Debug, PartialEq, Eq)]
pub enum Command {
    /// `--help` or `-h`: print the usage.
    Help,
    /// `write TABLE INDEX`: write a table and an index.
    Write,
    /// `all TABLE INDEX`: write a table and an index, read them back, and print them.
    All,
    /// `get TABLE [NAME ..]`: look up names in a table.
    Get,
    /// `list INDEX`: print an index.
    List,
}

/// Returns the command with the name and `count` arguments.
///
/// It is `None` if the name is unknown, or the command takes another number of arguments.
pub fn command_of(name: &str, count: usize) -> Option<Command>
    ensures command { result ≡ command_of name.now count }
    ensures enough { IfSome result (λ command. least_count command ≤ count) }
{
    match (name, count) {
        ("--help" | "-h", _) => Some(Command::Help),
        ("write", 2) => Some(Command::Write),
        ("all", 2) => Some(Command::All),
        ("get", 1..) => Some(Command::Get),
        ("list", 1) => Some(Command::List),
        _ => None,
    }
}
