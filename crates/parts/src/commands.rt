// Op-codes.
ghost use Rattle.std.specs.Prelude.{◌≡◌};
ghost use Rattle.parts.specs.Commands.{command};

#[derive(Clone, Copy)]
pub enum Command {
    Wren,
    Wrdi,
    Rdsr,
    Wrsr,
    Read,
    Fstrd,
    Write,
    Rdid,
    Snr,
    Sleep,
    // Does nothing.
    Other,
}

// An op-code with its command.
#[derive(Clone, Copy)]
pub struct Op {
    pub code: u8,
    pub command: Command,
}

// How many op-codes a row has room for; the rest is filled with ones that do nothing.
pub const OPS: usize = 10;

// The command that an op-code names, by a part's list.
pub fn decode(ops: [Op; OPS], code: u8) -> Command
    ensures { result ≡ command ops code }
{
    for op in ops {
        if code == op.code {
            return op.command;
        }
    }
    Command::Other
}
