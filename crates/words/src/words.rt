// Words of the story: reasons, commands by name, and what to do about a refusal.
ghost use Rattle.report.specs.Prints.{Prints};
ghost use Rattle.words.specs.Words.{reason_text, command_text, advice_text};

use parts::commands::Command;
use parts::guards::Reason;
use report::page::Page;

// Why a byte was held back.
#[tactic(auto, unfolding(crate::specs::Words::reason_text))]
pub fn print_reason(page: &mut Page, reason: Reason)
    ensures { Prints page.old (reason_text reason) page.new }
{
    let words: &[u8] = match reason {
        Reason::LatchOff => b"latch off",
        Reason::Protect => b"/WP low",
        Reason::Block => b"block protected",
    };
    page.print(words);
}

// A command's name.
#[tactic(auto, unfolding(crate::specs::Words::command_text))]
pub fn print_command(page: &mut Page, command: Command)
    ensures { Prints page.old (command_text command) page.new }
{
    let words: &[u8] = match command {
        Command::Wren => b"WREN",
        Command::Wrdi => b"WRDI",
        Command::Rdsr => b"RDSR",
        Command::Wrsr => b"WRSR",
        Command::Read => b"READ",
        Command::Fstrd => b"FSTRD",
        Command::Write => b"WRITE",
        Command::Rdid => b"RDID",
        Command::Snr => b"SNR",
        Command::Sleep => b"SLEEP",
        Command::Other => b"names no command",
    };
    page.print(words);
}

// What a refusal means, and what to do about it, by its number.
#[tactic(auto, unfolding(crate::specs::Words::advice_text))]
pub fn print_advice(page: &mut Page, row: u8)
    ensures { Prints page.old (advice_text row) page.new }
{
    match row {
        1 => page.print(b": no such part; begin with the part, 1 to 5"),
        3 => page.print(
            b": bits that the part does not keep; take bits of 0C on parts 1 and 2, of 8C on parts 3 to 5",
        ),
        6 => page.print(b": /HOLD would move with SCK high; lower SCK first"),
        7 => page.print(b": /HOLD would rise with /CS moved; put /CS back first"),
        8 => page.print(
            b": number missing, cut off, over four bytes or not shortest; write it whole, in its shortest form",
        ),
        9 => page.print(b": leading number over 267; begin with the part and the kept bits"),
        _ => {}
    }
}
